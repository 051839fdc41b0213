use tiny_alloc::Tiny;

// Five objects of 8, 4, 2, 1 and 2 bytes: the first begins a block at this address, three ride in it, and the last finds no room.
#[test]
fn objects_share_a_block_until_it_is_full(rt: HostRuntime) {
    let mut tiny = Tiny::new();
    assert!(rt; tiny.ride(8).is_none());
    tiny.lead(8, 0xc000000000);
    assert_eq!(rt; tiny.ride(4), Some(0xc000000008));
    assert_eq!(rt; tiny.ride(2), Some(0xc00000000c));
    assert_eq!(rt; tiny.ride(1), Some(0xc00000000e));
    assert!(rt; tiny.ride(2).is_none());
    tiny.clear();
    assert!(rt; tiny.ride(1).is_none());
}

// Two objects of 8 bytes fill one block. A block with less room than the current one, or as much, doesn't take its place.
#[test]
fn the_block_with_more_room_stays(rt: HostRuntime) {
    let mut tiny = Tiny::new();
    tiny.lead(8, 0xc000000000);
    assert_eq!(rt; tiny.ride(8), Some(0xc000000008));
    assert!(rt; tiny.ride(8).is_none());
    tiny.lead(8, 0xc000000010);
    assert_eq!(rt; tiny.ride(8), Some(0xc000000018));
    tiny.clear();
    tiny.lead(2, 0xc000000020);
    tiny.lead(2, 0xc000000030);
    tiny.lead(12, 0xc000000040);
    assert_eq!(rt; tiny.ride(2), Some(0xc000000022));
}
