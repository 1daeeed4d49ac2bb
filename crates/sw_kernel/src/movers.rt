//! Which items of a block stand in the other part, and have to go there: a bit for each, by its place, without a branch.

ghost use Rattle.std.specs.Prelude.{◌≡◌, ◌+◌, ◌-◌, ◌<◌, ◌≤◌, count_ones, length, true};
ghost use Rattle.sw_query.specs.declared.bound.Bound.TheVariants.{Before};
ghost use Rattle.sw_kernel.specs.Blocks.{IsFirst, IsWithout, Tells, TellsOneMore, goes_down, goes_up, is_set};

/// How many items a block has: one for each bit.
pub(crate) const BLOCK: usize = 64;

/// The same bits with that of one more place, set if its item goes.
#[inline(always)]
fn note(movers: u64, k: usize, goes: bool) -> u64
    requires { k < 64 }
    ensures { TellsOneMore goes k movers result }
{
    movers | ((goes as u64) << k)
}

/// The place `k` above `from` is looked at, too: its item goes up if it does not lie before the value.
#[inline(always)]
fn note_up(head: &[i64], from: usize, value: i64, movers: u64, k: usize) -> u64
    requires within { (k < 64) × (from + k < length head.now) }
    requires told { Tells (goes_up (Before value) head.now from) k movers }
    ensures { Tells (goes_up (Before value) head.now from) (k + 1) result }
{
    note(movers, k, head[from + k] >= value)
}

/// The place `k` below `end` is looked at, too: its item goes down if it lies before the value.
#[inline(always)]
fn note_down(head: &[i64], end: usize, value: i64, movers: u64, k: usize) -> u64
    requires within { (k < 64) × (k < end) × (end ≤ length head.now) }
    requires told { Tells (goes_down (Before value) head.now end) k movers }
    ensures { Tells (goes_down (Before value) head.now end) (k + 1) result }
{
    note(movers, k, head[end - 1 - k] < value)
}

/// Those of the `many` items from `from` on that go up, places counted from there.
#[inline(always)]
pub(crate) fn up_of(head: &[i64], from: usize, many: usize, value: i64) -> u64
    requires { (many ≤ 64) × (from + many ≤ length head.now) }
    ensures { Tells (goes_up (Before value) head.now from) many result }
{
    let mut movers = 0u64;
    for k in 0..many {
        movers = note_up(head, from, value, movers, k);
    }
    movers
}

/// Those of the `many` items below `end` that go down, places counted down from there.
#[inline(always)]
pub(crate) fn down_of(head: &[i64], end: usize, many: usize, value: i64) -> u64
    requires { (many ≤ 64) × (many ≤ end) × (end ≤ length head.now) }
    ensures { Tells (goes_down (Before value) head.now end) many result }
{
    let mut movers = 0u64;
    for k in 0..many {
        movers = note_down(head, end, value, movers, k);
    }
    movers
}

/// The eight places from the `k`-th on are looked at, too.
#[inline(always)]
fn note_eight_up(head: &[i64], from: usize, value: i64, movers: u64, k: usize) -> u64
    requires within { (k + 8 ≤ 64) × (from + k + 8 ≤ length head.now) }
    requires told { Tells (goes_up (Before value) head.now from) k movers }
    ensures { Tells (goes_up (Before value) head.now from) (k + 8) result }
{
    let movers = note_up(head, from, value, movers, k);
    let movers = note_up(head, from, value, movers, k + 1);
    let movers = note_up(head, from, value, movers, k + 2);
    let movers = note_up(head, from, value, movers, k + 3);
    let movers = note_up(head, from, value, movers, k + 4);
    let movers = note_up(head, from, value, movers, k + 5);
    let movers = note_up(head, from, value, movers, k + 6);
    note_up(head, from, value, movers, k + 7)
}

/// The same as `up_of` of a whole block. It is written out, so that items are compared by vector code.
#[inline(always)]
fn up_of_block(head: &[i64], from: usize, value: i64) -> u64
    requires { from + 64 ≤ length head.now }
    ensures { Tells (goes_up (Before value) head.now from) 64 result }
{
    let movers = note_eight_up(head, from, value, 0, 0);
    let movers = note_eight_up(head, from, value, movers, 8);
    let movers = note_eight_up(head, from, value, movers, 16);
    let movers = note_eight_up(head, from, value, movers, 24);
    let movers = note_eight_up(head, from, value, movers, 32);
    let movers = note_eight_up(head, from, value, movers, 40);
    let movers = note_eight_up(head, from, value, movers, 48);
    note_eight_up(head, from, value, movers, 56)
}

/// The eight places from the `k`-th on are looked at, too.
#[inline(always)]
fn note_eight_down(head: &[i64], end: usize, value: i64, movers: u64, k: usize) -> u64
    requires within { (k + 8 ≤ 64) × (k + 8 ≤ end) × (end ≤ length head.now) }
    requires told { Tells (goes_down (Before value) head.now end) k movers }
    ensures { Tells (goes_down (Before value) head.now end) (k + 8) result }
{
    let movers = note_down(head, end, value, movers, k);
    let movers = note_down(head, end, value, movers, k + 1);
    let movers = note_down(head, end, value, movers, k + 2);
    let movers = note_down(head, end, value, movers, k + 3);
    let movers = note_down(head, end, value, movers, k + 4);
    let movers = note_down(head, end, value, movers, k + 5);
    let movers = note_down(head, end, value, movers, k + 6);
    note_down(head, end, value, movers, k + 7)
}

/// The same as `down_of` of a whole block.
#[inline(always)]
fn down_of_block(head: &[i64], end: usize, value: i64) -> u64
    requires { (64 ≤ end) × (end ≤ length head.now) }
    ensures { Tells (goes_down (Before value) head.now end) 64 result }
{
    let movers = note_eight_down(head, end, value, 0, 0);
    let movers = note_eight_down(head, end, value, movers, 8);
    let movers = note_eight_down(head, end, value, movers, 16);
    let movers = note_eight_down(head, end, value, movers, 24);
    let movers = note_eight_down(head, end, value, movers, 32);
    let movers = note_eight_down(head, end, value, movers, 40);
    let movers = note_eight_down(head, end, value, movers, 48);
    note_eight_down(head, end, value, movers, 56)
}

/// Where no item of a block is left, those of the one from `i` on.
#[inline(always)]
pub(crate) fn top_up(head: &[i64], i: usize, value: i64, movers: u64) -> u64
    requires room { i + 64 ≤ length head.now }
    requires told { 0 < movers → Tells (goes_up (Before value) head.now i) 64 movers }
    ensures { Tells (goes_up (Before value) head.now i) 64 result }
{
    if movers == 0 {
        up_of_block(head, i, value)
    } else {
        movers
    }
}

/// The same of the one below `j`.
#[inline(always)]
pub(crate) fn top_down(head: &[i64], j: usize, value: i64, movers: u64) -> u64
    requires room { (64 ≤ j) × (j ≤ length head.now) }
    requires told { 0 < movers → Tells (goes_down (Before value) head.now j) 64 movers }
    ensures { Tells (goes_down (Before value) head.now j) 64 result }
{
    if movers == 0 {
        down_of_block(head, j, value)
    } else {
        movers
    }
}

/// How many of the items from `from` up to `upto` lie before the value: where the parts should meet.
#[inline(always)]
pub(crate) fn count_before(head: &[i64], from: usize, upto: usize, value: i64) -> usize
    requires { (from ≤ upto) × (upto ≤ length head.now) }
    ensures { result ≤ upto - from }
{
    let mut n = 0usize;
    for k in 0..upto - from {
        n += usize::from(head[from + k] < value);
    }
    n
}

/// The place of the first that has to go.
#[inline(always)]
pub(crate) fn first(movers: u64) -> u32
    requires { 0 < movers }
    ensures within { result < 64 }
    ensures first { IsFirst movers result }
{
    movers.trailing_zeros()
}

/// The others that have to go.
#[inline(always)]
pub(crate) fn without(movers: u64, place: u32) -> u64
    requires within { place < 64 }
    requires set { is_set movers place ≡ true }
    ensures gone { IsWithout place movers result }
    ensures fewer { count_ones movers ≡ count_ones result + 1 }
{
    movers & !(1u64 << place)
}
