//! Values that are kept under keys, by example.

use np_kept::{Kept, OfSource};
use std::process::Abort;

// A power of a number; the exponent is what it is kept of.
#[derive(Drop)]
struct Power {
    base: u32,
    value: u32,
}

impl OfSource<u32> for Power {
    ghost use Rattle.std.specs.Prelude.{◌≡◌, ◌^◌};

    ghost IsRight = { λ exponent power. power.value ≡ power.base ^ exponent };
}

// Stops the test unless this is the value under a key.
fn expect_found(rt: &impl Abort, kept: &Kept<u32, Power>, key: u64, value: Option<u32>) {
    let found = kept.find(key).map(|power| power.value);
    assert!(rt; found == value, "the value under {key}");
}

#[test]
fn example_kept(rt: HostRuntime) {
    let mut squares: Kept<u32, Power> = Kept::new(rt.alloc(), 2, 100);
    squares
        .keep(3, Power { base: 3, value: 9 }, 50)
        .expect(&rt, "three");
    squares
        .keep(4, Power { base: 4, value: 16 }, 50)
        .expect(&rt, "four");
    assert!(&rt; *squares.source() == 2, "the source");
    expect_found(&rt, &squares, 3, Some(9));
    expect_found(&rt, &squares, 4, Some(16));
    expect_found(&rt, &squares, 5, None);
    squares
        .keep(5, Power { base: 5, value: 25 }, 101)
        .expect(&rt, "more than there is room for");
    expect_found(&rt, &squares, 5, None);
    expect_found(&rt, &squares, 3, Some(9));
    squares
        .keep(6, Power { base: 6, value: 36 }, 1)
        .expect(&rt, "not beside the others");
    expect_found(&rt, &squares, 3, None);
    expect_found(&rt, &squares, 6, Some(36));
}
