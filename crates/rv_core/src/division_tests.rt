// The eight operations of extension M on a thousand pairs of words, as a program of the machine, against
// arithmetic on 64 bits: products of sign-extended words, and quotients of distances from zero.

ghost use Rattle.std.specs.Prelude.{◌<◌};

use super::*;
use std::alloc::Global;
use std::test::Fail;

// Loads two words, and stores what each operation makes of them. The words are those of the assembler of LLVM 14.
const CODE: [u32; 18] = [
    0x20002503, // lw a0, 512(zero)
    0x20402583, // lw a1, 516(zero)
    0x02b502b3, // mul t0, a0, a1
    0x02b51333, // mulh t1, a0, a1
    0x02b523b3, // mulhsu t2, a0, a1
    0x02b53433, // mulhu s0, a0, a1
    0x02b544b3, // div s1, a0, a1
    0x02b55933, // divu s2, a0, a1
    0x02b569b3, // rem s3, a0, a1
    0x02b57a33, // remu s4, a0, a1
    0x20502423, // sw t0, 520(zero)
    0x20602623, // sw t1, 524(zero)
    0x20702823, // sw t2, 528(zero)
    0x20802a23, // sw s0, 532(zero)
    0x20902c23, // sw s1, 536(zero)
    0x21202e23, // sw s2, 540(zero)
    0x23302023, // sw s3, 544(zero)
    0x23402223, // sw s4, 548(zero)
];

const EDGES: [u32; 12] = [
    0, 1, 2, 3, 7, 0x7FFFFFFE, 0x7FFFFFFF, 0x80000000, 0x80000001, 0xFFFFFFF9, 0xFFFFFFFE,
    0xFFFFFFFF,
];

const SIGN: u32 = 0x8000_0000;

const WORDS: u64 = 0x1_0000_0000;

fn results(alloc: Global, a: u32, b: u32) -> Result<[u32; 8], Fail> {
    let mut machine = Machine::new(alloc, 1024)?;
    machine.load(&CODE, 0, 18);
    machine.copy_in(512, a);
    machine.copy_in(516, b);
    for _ in 0..18 {
        if machine.step() != Step::Went {
            return Err("the program stopped")?;
        }
    }
    let mut words = [0; 8];
    if machine.fits(520, 8).is_err() {
        return Err("eight words do not fit")?;
    }
    machine.copy_out(520, &mut words);
    Ok(words)
}

fn sign_extended(word: u32) -> u64 {
    if word < SIGN {
        word as u64
    } else {
        word as u64 + 0xFFFF_FFFF_0000_0000
    }
}

fn upper(product: u64) -> u32 {
    (product >> 32) as u32
}

fn from_zero(word: u32) -> u64
    ensures { 0 < word → 0 < result }
{
    if word < SIGN {
        word as u64
    } else {
        WORDS - word as u64
    }
}

fn with_sign(negative: bool, distance: u64) -> u32 {
    let signed = if negative {
        0u64.wrapping_sub(distance)
    } else {
        distance
    };
    (signed % WORDS) as u32
}

fn quotients(a: u32, b: u32) -> [u32; 4] {
    if b == 0 {
        return [u32::MAX, u32::MAX, a, a];
    }
    let quotient = with_sign((a < SIGN) != (b < SIGN), from_zero(a) / from_zero(b));
    let remainder = with_sign(a >= SIGN, from_zero(a) % from_zero(b));
    [quotient, a / b, remainder, a % b]
}

fn expected(a: u32, b: u32) -> [u32; 8] {
    let x = sign_extended(a);
    let y = sign_extended(b);
    let [div, divu, rem, remu] = quotients(a, b);
    [
        (x.wrapping_mul(y) % WORDS) as u32,
        upper(x.wrapping_mul(y)),
        upper(x.wrapping_mul(b as u64)),
        upper((a as u64).wrapping_mul(b as u64)),
        div,
        divu,
        rem,
        remu,
    ]
}

#[test]
fn edges_are_multiplied_and_divided(rt: HostRuntime) -> Result<(), Fail> {
    for a in EDGES {
        for b in EDGES {
            assert_eq!(rt; results(rt.alloc(), a, b)?, expected(a, b), "{a}, {b}");
        }
    }
    Ok(())
}

// Words of a congruential generator; the second is shifted down, so that quotients of all sizes come.
#[test]
fn words_are_multiplied_and_divided(rt: HostRuntime) -> Result<(), Fail> {
    let mut state = 1u64;
    for i in 0..1000u32 {
        state = state
            .wrapping_mul(6364136223846793005)
            .wrapping_add(1442695040888963407);
        let a = upper(state);
        state = state
            .wrapping_mul(6364136223846793005)
            .wrapping_add(1442695040888963407);
        let b = upper(state) >> (i % 32);
        assert_eq!(rt; results(rt.alloc(), a, b)?, expected(a, b), "{a}, {b}");
    }
    Ok(())
}
