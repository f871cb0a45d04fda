//! Bytes of hexadecimal digits.

use std::alloc::Global;
use std::test::Fail;
use test_lines::bytes_of;

/// An array of the bytes of these digits. No contract says what they are: such a list is computed by all that looks at it.
pub(crate) fn array_of<const N: usize>(alloc: Global, digits: &str) -> Result<[u8; N], Fail> {
    let bytes = bytes_of(alloc, digits)?;
    let array = <[u8; N]>::try_from(bytes.as_slice());
    drop(bytes);
    match array {
        Ok(array) => Ok(array),
        Err(_) => Err(Fail::new("another number of bytes")),
    }
}
