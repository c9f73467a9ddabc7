// Scripts of creations and deletions on four blocks, at two sorts of element.
ghost use Rattle.std.specs.Prelude.{◌≤◌, length, nat_eq};

use crate::pool::Pool;
use crate::sequence::SequenceNumber;
use crate::sought::Sought;
use chain::{Branch, Chain, Index, Link};
use std::test::Fail;

// A number is told by itself.
impl Sought for u32 {
    type Key = u32;

    ghost hit = { nat_eq };

    fn matches(&self, key: u32) -> bool {
        *self == key
    }
}

#[derive(Clone, Copy)]
struct Item {
    kind: u8,
    value: u16,
}

const BLANK: Item = Item { kind: 0, value: 0 };

// The number of an index; 0 is none.
fn shown(x: Option<Index>) -> u32 {
    x.map_or(0, |x| x.number())
}

// Creates a member of block `owner`, and gives its number; 0 where there is none.
fn add(pool: &mut Pool<Item>, owner: u32, branch: Branch) -> u32 {
    if let Some(owner) = Index::new(owner) {
        if pool.is_used(owner) {
            return shown(pool.create(Chain::Members { owner, branch }, Item { kind: 2, value: 7 }));
        }
    }
    0
}

// Deletes block `x` with its members, where it is in use.
fn take(pool: &mut Pool<Item>, x: u32) {
    if let Some(x) = Index::new(x) {
        if pool.is_used(x) {
            pool.delete(x);
        }
    }
}

#[test]
fn links_are_small(rt: HostRuntime) {
    assert!(rt; size_of::<Link>() <= 40);
}

#[test]
fn items_nest(rt: HostRuntime) {
    let mut links = [Link::BLANK; 5];
    let mut items = [BLANK; 4];
    let mut pool = Pool::open(&mut links, &mut items, 9, BLANK);
    assert_eq!(rt; shown(pool.create(Chain::Root, BLANK)), 1);
    assert_eq!(rt; add(&mut pool, 1, Branch::First), 2);
    assert_eq!(rt; add(&mut pool, 2, Branch::First), 3);
    assert_eq!(rt; add(&mut pool, 2, Branch::First), 4);
    assert_eq!(rt; add(&mut pool, 2, Branch::First), 0);
    take(&mut pool, 3);
    assert_eq!(rt; pool.spare(), 1);
    assert_eq!(rt; add(&mut pool, 2, Branch::First), 3);
    take(&mut pool, 1);
    assert_eq!(rt; pool.spare(), 4);
    assert_eq!(rt; shown(pool.create(Chain::Root, BLANK)), 1);
    assert_eq!(rt; shown(pool.create(Chain::Root, BLANK)), 2);
    assert_eq!(rt; shown(pool.create(Chain::Root, BLANK)), 3);
}

#[test]
fn first_members_go_first(rt: HostRuntime) {
    let mut links = [Link::BLANK; 4];
    let mut items = [BLANK; 4];
    let mut pool = Pool::open(&mut links, &mut items, 9, BLANK);
    assert_eq!(rt; shown(pool.create(Chain::Root, BLANK)), 1);
    assert_eq!(rt; add(&mut pool, 1, Branch::Second), 2);
    assert_eq!(rt; add(&mut pool, 1, Branch::First), 3);
    take(&mut pool, 1);
    assert_eq!(rt; shown(pool.create(Chain::Root, BLANK)), 1);
    assert_eq!(rt; shown(pool.create(Chain::Root, BLANK)), 2);
    assert_eq!(rt; shown(pool.create(Chain::Root, BLANK)), 3);
}

#[test]
fn numbers_are_found(rt: HostRuntime) -> Result<(), Fail> {
    let mut links = [Link::BLANK; 4];
    let mut numbers = [0; 4];
    let mut pool = Pool::open(&mut links, &mut numbers, 3, 0);
    assert_eq!(rt; shown(pool.create(Chain::Root, 10)), 1);
    let second = pool.create(Chain::Root, 20);
    assert_eq!(rt; shown(pool.create(Chain::Root, 30)), 3);
    assert_eq!(rt; shown(pool.create(Chain::Root, 40)), 0);
    assert_eq!(rt; shown(pool.find(Chain::Root, 20)), 2);
    assert_eq!(rt; pool.len(Chain::Root), 3);
    let Some(x) = second else {
        return Err(Fail::new("no block is free"));
    };
    if !pool.is_used(x) {
        return Err(Fail::new("a created block is in use"));
    }
    assert_eq!(rt; pool.read(x), 20);
    assert_eq!(rt; shown(pool.next(x)), 3);
    assert_eq!(rt; shown(pool.previous(x)), 1);
    pool.delete(x);
    assert_eq!(rt; shown(pool.find(Chain::Root, 20)), 0);
    let Some(place) = SequenceNumber::new(2) else {
        return Err(Fail::new("2 is a place"));
    };
    assert_eq!(rt; shown(pool.block_at(Chain::Root, place)), 3);
    assert_eq!(rt; shown(pool.tail(Chain::Root)), 3);
    Ok(())
}
