//! Files that are read and written at places, and what a crash may leave of them.
//!
//! `specs/Crash.antt` is the disk model. It is a premise: what tells its contents tells them by it, and the files of this
//! machine tell nothing.
#![tactic(auto)]

mod disk;
mod disk_act;
mod disk_call;
mod disk_len;
mod disks;
mod file_disks;
pub mod laws;
mod mem_disk;
mod mem_disks;
mod mem_file;

pub use disk::Disk;
pub use disk_act::DiskAct;
pub use disk_call::DiskCall;
pub use disk_len::DiskLen;
pub use disks::{DiskOpen, Disks};
pub use file_disks::{FileDisk, FileDisks};
pub use mem_disk::MemDisk;
pub use mem_disks::MemDisks;
pub use mem_file::MemFile;
