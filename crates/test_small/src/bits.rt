//! Bit vectors of several words.

ghost use Rattle.std.specs.Prelude.{◌≡◌, IfOk, length};

use std::alloc::Global;
use sw_bits::Bits;
use sw_rows::Refusal;

/// The vector of 130 places of which only those that 3 divides are true.
fn thirds(alloc: Global) -> Result<Bits, Refusal>
    ensures { IfOk result (λ bits. length bits ≡ 130) }
{
    let mut bits = Bits::all(alloc, 130)?;
    for i in 0..130 {
        bits.refine(i, i % 3 == 0);
    }
    Ok(bits)
}

/// How many places, and the last place of a vector that has one.
const WHOLE: &[(usize, usize)] = &[
    (0, 0),
    (1, 0),
    (63, 62),
    (64, 63),
    (65, 64),
    (128, 127),
    (130, 129),
];

/// Whether so many places are all true.
fn is_whole(alloc: Global, len: usize, last: usize) -> Result<bool, Refusal> {
    let bits = Bits::all(alloc, len)?;
    let ends = last >= bits.len() || bits.get(0) && bits.get(last);
    Ok(ends && bits.len() == len && bits.count() == len)
}

/// Whether each of these places is as it is said.
fn are(bits: &Bits, places: &[(usize, bool)]) -> bool {
    for (i, wanted) in places {
        if *i >= bits.len() || bits.get(*i) != *wanted {
            return false;
        }
    }
    true
}

/// Whether places that are made false stay so, and the others as they are.
fn are_refined(bits: &mut Bits) -> bool
    requires { length bits.old ≡ 130 }
{
    let places = [(0, true), (1, false), (63, true), (64, false), (129, true)];
    let thirds = bits.count() == 44 && are(bits, &places);
    bits.refine(1, true);
    let same = bits.count() == 44 && are(bits, &places);
    bits.refine(63, false);
    thirds && same && bits.count() == 43 && are(bits, &[(63, false), (66, true)])
}

#[test]
fn bits_are_whole_and_refined(rt: HostRuntime) -> Result<(), Refusal> {
    for (len, last) in WHOLE {
        assert!(rt; is_whole(rt.alloc(), *len, *last)?, "{len}");
    }
    let mut bits = thirds(rt.alloc())?;
    assert!(rt; are_refined(&mut bits));
    Ok(())
}
