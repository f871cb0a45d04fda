//! Jobs with their stamps, in nodes that go from list to list and take no memory there.

ghost use Rattle.std.specs.Prelude.{◌≡◌, ◌+◌, ◌<◌, ◌≤◌, ◌^◌, ◌∷◌, ◌++◌, [], length, take, drop, OnOk, IfOk};
ghost use Rattle.std.specs.List.{remove};
ghost use Rattle.waits.specs.declared.stamped.Stamped.{Stamped as One};

use crate::job::{Job, Unfinished};
use bytes::Bytes;
use msg_ids::Moment;
use octets::{IdList, Memory};
use std::alloc::Global;
use std::collections::LinkedList;
use std::mem;

/// A job and its stamp. A job that is accepted later has a greater stamp.
#[derive(Debug, Drop)]
pub(crate) struct Stamped {
    pub stamp: u64,
    pub one: Unfinished,
}

/// Such jobs, each in a node of its own.
pub(crate) type Nodes = LinkedList<Stamped>;

impl Stamped {
    /// What stands in a node without a job. Takes no memory.
    fn none(alloc: Global) -> Stamped {
        let job = Job {
            key: 0,
            session: 0,
            number: 0,
            since: Moment::new(0),
            after: IdList::new(alloc),
            request: Bytes::from_static(b""),
        };
        Stamped {
            stamp: 0,
            one: Unfinished { job, failed: false },
        }
    }

    /// A copy that shares the bytes of the request.
    ///
    /// # Errors
    ///
    /// `Memory`.
    pub(crate) fn copy(&self) -> Result<Stamped, Memory>
        ensures { IfOk result (λ copy. copy ≡ self.now) }
    {
        Ok(Stamped {
            stamp: self.stamp,
            one: self.one.copy()?,
        })
    }
}

/// Makes so many nodes, where fewer are there.
///
/// # Errors
///
/// `Memory`, and then some may be made.
pub(crate) fn prepare(nodes: &mut Nodes, alloc: Global, count: usize) -> Result<(), Memory>
    ensures kept { length nodes.old ≤ length nodes.new }
    ensures made { OnOk result (count ≤ length nodes.new) }
{
    for _ in nodes.len()..count {
        if nodes.push_back(Stamped::none(alloc)).is_err() {
            return Err(Memory);
        }
    }
    Ok(())
}

/// Takes off the nodes from this place on.
pub(crate) fn cut(nodes: &mut Nodes, at: usize) -> Nodes
    requires { at ≤ length nodes.old }
    ensures front { nodes.new ≡ take at nodes.old }
    ensures rest { result ≡ drop at nodes.old }
{
    nodes.split_off(at).unwrap()
}

/// Puts nodes behind others.
pub(crate) fn join(nodes: &mut Nodes, mut others: Nodes)
    requires { length nodes.old + length others < 2 ^ 63 }
    ensures { nodes.new ≡ nodes.old ++ others }
{
    nodes.append(&mut others).unwrap();
}

/// Takes out the node of a place.
pub(crate) fn pick(nodes: &mut Nodes, at: usize) -> Nodes
    requires within { at < length nodes.old }
    requires few { length nodes.old < 2 ^ 63 }
    ensures node { result ≡ take 1 (drop at nodes.old) }
    ensures left { nodes.new ≡ remove nodes.old at }
{
    let mut node = cut(nodes, at);
    let rest = cut(&mut node, 1);
    join(nodes, rest);
    node
}

/// The job of a single node.
pub(crate) fn only(node: &Nodes) -> &Stamped
    requires { length node.now ≡ 1 }
    ensures { node.now ≡ result.now ∷ [] }
{
    node.front().unwrap()
}

/// Puts a job into a single node, and takes out what stood there.
pub(crate) fn fill(node: &mut Nodes, job: Stamped) -> Stamped
    requires { length node.old ≡ 1 }
    ensures taken { node.old ≡ result ∷ [] }
    ensures left { node.new ≡ job ∷ [] }
{
    mem::replace(node.front_mut().unwrap(), job)
}

/// Takes the job out of a single node, which goes to others.
pub(crate) fn empty(mut node: Nodes, others: &mut Nodes) -> Job
    requires { length node ≡ 1 }
    ensures taken { (stamped : One) × (node ≡ stamped ∷ []) × (result ≡ stamped.one.job) }
    ensures kept { length others.old ≤ length others.new }
{
    let alloc = *others.allocator();
    let Stamped { stamp: _, one } = fill(&mut node, Stamped::none(alloc));
    let _ = others.append(&mut node);
    one.job
}
