//! A disk that fails while a file is read.
use crate::files::{FILE, disk_of};
use audit::{AuditFault, audit};
use chain_store::{LoadFault, load};
use std::test::Fail;
use test_rows::holds;

// The two calls of an audit and of a load.
const CALLS: [(&str, u64); 2] = [("the header", 1), ("the frames", 2)];

#[test]
fn a_disk_that_fails_gives_no_verdict_and_no_state(rt: HostRuntime) -> Result<(), Fail> {
    let alloc = rt.alloc();
    for (name, failing) in CALLS {
        let mut disk = disk_of(alloc, FILE, failing)?;
        holds(audit(alloc, &mut disk) == Err(AuditFault::DiskFault), name)?;
        let mut disk = disk_of(alloc, FILE, failing)?;
        let fault = load(alloc, &mut disk).err();
        holds(fault == Some(LoadFault::DiskFault), name)?;
    }
    Ok(())
}
