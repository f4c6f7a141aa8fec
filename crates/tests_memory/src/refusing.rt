use linked_list_allocator::LocalHeap;
use std::alloc::Global;
use std::process::Abort;
use std::test::*;

/// The most calls of a run.
const MOST: usize = 8;

/// Runs over heaps of every size, from none at all up. A run returns the call for which there was no memory, by its number below
/// `calls`, or that there was memory for all. Each call must be refused in some run, and none once there was memory for all.
pub(crate) fn each_is_refused_once<F: Fn(&LocalHeap) -> Option<usize>>(
    rt: &impl Abort,
    alloc: Global,
    calls: usize,
    run: F,
) -> Result<(), Fail>
    requires { F.IsAlwaysCallable run }
{
    let mut refused = [false; MOST];
    let mut whole = false;
    for units in 0..1500usize {
        let heap = LocalHeap::new(alloc, 16 * units)?;
        match run(&heap) {
            None => whole = true,
            Some(call) => {
                assert!(rt; !whole && call < calls && call < MOST);
                refused[call] = true;
            }
        }
    }
    assert!(rt; whole);
    assert!(rt; refused.iter().take(calls).all(|refused| *refused));
    Ok(())
}
