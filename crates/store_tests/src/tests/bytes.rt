ghost use Rattle.std.specs.Prelude.{IsTrue};
ghost use Rattle.flat_store.specs.Word.{is_word_size};

use flat_store::{FIRST_ADDRESS, Flat, OutsideFlat};
use std::process::Abort;
use std::test::Fail;

const ONE_TO_EIGHT: u64 = 0x0807060504030201;

// Loads at each address so many bytes, and compares the answer.
fn check_loads(rt: &impl Abort, flat: &Flat, rows: &[(u64, u8, Result<u64, OutsideFlat>)]) {
    for (at, n, wanted) in rows {
        assert!(rt; matches!(*n, 1 | 2 | 4 | 8));
        assert_eq!(rt; flat.load(*at, *n), *wanted, "{n} bytes at {at}");
    }
}

#[test]
fn loads_at_each_width_and_end(rt: HostRuntime) -> Result<(), Fail> {
    let mut flat = Flat::new(rt.alloc(), 16)?;
    assert_eq!(rt; flat.store(FIRST_ADDRESS, 8, ONE_TO_EIGHT), Ok(()));
    let rows = [
        (4096, 1, Ok(0x01)),
        (4096, 2, Ok(0x0201)),
        (4096, 4, Ok(0x04030201)),
        (4096, 8, Ok(ONE_TO_EIGHT)),
        (4101, 4, Ok(0x080706)),
        (4104, 8, Ok(0)),
        (4111, 1, Ok(0)),
        (4095, 2, Err(OutsideFlat(4095))),
        (4112, 1, Err(OutsideFlat(4112))),
        (4105, 8, Err(OutsideFlat(4112))),
        (0, 4, Err(OutsideFlat(0))),
        (1 << 40, 8, Err(OutsideFlat(1 << 40))),
        (u64::MAX, 1, Err(OutsideFlat(u64::MAX))),
        (u64::MAX, 8, Err(OutsideFlat(u64::MAX))),
    ];
    check_loads(&rt, &flat, &rows);
    Ok(())
}

// Stores so many low bytes over ones, and reads all eight.
fn read_after_store(flat: &mut Flat, n: u8) -> Result<u64, OutsideFlat>
    requires { IsTrue (is_word_size n) }
{
    flat.store(4096, 8, u64::MAX)?;
    flat.store(4096, n, ONE_TO_EIGHT)?;
    flat.load(4096, 8)
}

#[test]
fn stores_the_low_bytes(rt: HostRuntime) -> Result<(), Fail> {
    let mut flat = Flat::new(rt.alloc(), 8)?;
    let read = [
        read_after_store(&mut flat, 1),
        read_after_store(&mut flat, 2),
        read_after_store(&mut flat, 4),
        read_after_store(&mut flat, 8),
    ];
    let wanted = [
        Ok(0xffffffffffffff01),
        Ok(0xffffffffffff0201),
        Ok(0xffffffff04030201),
        Ok(ONE_TO_EIGHT),
    ];
    assert_eq!(rt; read, wanted);
    let refused = [
        flat.store(4104, 1, 0),
        flat.store(4104, 2, 0),
        flat.store(4104, 4, 0),
        flat.store(4104, 8, 0),
    ];
    assert_eq!(rt; refused, [Err(OutsideFlat(4104)); 4]);
    Ok(())
}

// Stores the bytes one to eight, clears so many from the second on, and reads all.
fn read_after_clear(flat: &mut Flat, n: u64) -> Result<u64, OutsideFlat> {
    flat.store(4096, 8, ONE_TO_EIGHT)?;
    flat.clear(4097, n)?;
    flat.load(4096, 8)
}

#[test]
fn clears_bytes(rt: HostRuntime) -> Result<(), Fail> {
    let mut flat = Flat::new(rt.alloc(), 8)?;
    let read = [
        read_after_clear(&mut flat, 0),
        read_after_clear(&mut flat, 3),
        read_after_clear(&mut flat, 7),
        read_after_clear(&mut flat, 8),
    ];
    let wanted = [
        Ok(ONE_TO_EIGHT),
        Ok(0x0807060500000001),
        Ok(1),
        Err(OutsideFlat(4104)),
    ];
    assert_eq!(rt; read, wanted);
    assert_eq!(rt; flat.load(4096, 8), Ok(ONE_TO_EIGHT));
    Ok(())
}

// What a copy among the bytes one to eight answers, and what they are then.
fn read_after_copy(
    flat: &mut Flat,
    to: u64,
    from: u64,
    n: u64,
) -> Result<(Result<(), OutsideFlat>, u64), OutsideFlat> {
    flat.store(4096, 8, ONE_TO_EIGHT)?;
    let answer = flat.copy(to, from, n);
    Ok((answer, flat.load(4096, 8)?))
}

#[test]
fn copies_where_the_ranges_overlap(rt: HostRuntime) -> Result<(), Fail> {
    let mut flat = Flat::new(rt.alloc(), 8)?;
    let read = [
        read_after_copy(&mut flat, 4098, 4096, 6),
        read_after_copy(&mut flat, 4096, 4098, 6),
        read_after_copy(&mut flat, 0, u64::MAX, 0),
        read_after_copy(&mut flat, 4104, 0, 1),
        read_after_copy(&mut flat, 4096, 4102, 3),
        read_after_copy(&mut flat, 4096, 4096, u64::MAX),
    ];
    let wanted = [
        Ok((Ok(()), 0x0605040302010201)),
        Ok((Ok(()), 0x0807080706050403)),
        Ok((Ok(()), ONE_TO_EIGHT)),
        Ok((Err(OutsideFlat(4104)), ONE_TO_EIGHT)),
        Ok((Err(OutsideFlat(4104)), ONE_TO_EIGHT)),
        Ok((Err(OutsideFlat(4104)), ONE_TO_EIGHT)),
    ];
    assert_eq!(rt; read, wanted);
    Ok(())
}

#[test]
fn finds_the_end_of_a_text(rt: HostRuntime) -> Result<(), Fail> {
    let hi = 0xffffffffff006968;
    let mut flat = Flat::new(rt.alloc(), 8)?;
    assert_eq!(rt; flat.store(4096, 8, hi), Ok(()));
    let lengths = [
        flat.text_len(4096, 2),
        flat.text_len(4096, u64::MAX),
        flat.text_len(4096, 1),
        flat.text_len(4098, 0),
        flat.text_len(4099, 4),
        flat.text_len(4099, 5),
        flat.text_len(4099, u64::MAX),
        flat.text_len(4104, 0),
        flat.text_len(4095, 0),
    ];
    let wanted = [
        Ok(Some(2)),
        Ok(Some(2)),
        Ok(None),
        Ok(Some(0)),
        Ok(None),
        Err(OutsideFlat(4104)),
        Err(OutsideFlat(4104)),
        Err(OutsideFlat(4104)),
        Err(OutsideFlat(4095)),
    ];
    assert_eq!(rt; lengths, wanted);
    Ok(())
}

#[test]
fn an_address_outside_in_words(rt: HostRuntime) -> Result<(), Fail> {
    let words = format!(in rt.alloc(); "{}", OutsideFlat(4112))?;
    assert_eq!(rt; words.as_str(), "no byte at address 4112");
    Ok(())
}
