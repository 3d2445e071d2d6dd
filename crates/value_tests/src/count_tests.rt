// A count of faults.
use fault_count::FaultCount;

#[test]
fn a_count_rises_one_by_one(rt: HostRuntime) {
    let mut count = FaultCount::new();
    assert_eq!(rt; count.get(), 0);
    count.raise();
    count.raise();
    assert_eq!(rt; count.get(), 2);
}
