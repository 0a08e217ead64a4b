//! Short lists, of which each constructor takes some and not others.

use super::*;
use hpf_num::Run;

#[test]
fn short_lists(rt: HostRuntime) {
    let eight = [Run { low: 1, high: 1 }; 8];
    assert!(rt; Bounds::new(&[]).is_none());
    assert!(rt; Bounds::new(&eight).is_none());
    assert!(rt; Bounds::new(&eight[..7]).is_some());
    assert!(rt; Bounds::new(&[Run { low: 2, high: 1 }]).is_none());
    assert!(rt; Sizes::new(&[8, 8]).is_some());
    assert!(rt; Sizes::new(&[13, 5]).is_none());
    assert!(rt; Sizes::new(&[3, 0]).is_none());
    assert!(rt; Sizes::new(&[u32::MAX, u32::MAX]).is_none());
    assert!(rt; Widths::new(&[]).is_none());
    assert!(rt; Perm::new(&[3, 1, 2]).is_some());
    assert!(rt; Perm::new(&[1, 2, 2]).is_none());
    assert!(rt; Perm::new(&[0, 1]).is_none());
    assert!(rt; Perm::new(&[2, 1]) != Some(Perm::identity(2)));
    assert!(rt; Perm::new(&[1, 2]) == Some(Perm::identity(2)));
}
