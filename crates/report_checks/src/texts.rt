// Decimals as they are printed, and the bytes of texts in hexadecimal.
use report::{Decimal, HexError, Places, bytes_of_hex};
use std::alloc::Global;
use std::process::Abort;
use std::test::Fail;

fn prints(rt: &impl Abort, heap: Global, decimal: Decimal, text: &str) -> Result<(), Fail> {
    let printed = format!(in heap; "{decimal}")?;
    assert_eq!(rt; printed.as_str(), text);
    Ok(())
}

#[test]
fn decimals(rt: HostRuntime) -> Result<(), Fail> {
    let heap = rt.alloc();
    prints(
        &rt,
        heap,
        Decimal::new(false, 877_460, Places::Five),
        "8.77460",
    )?;
    prints(&rt, heap, Decimal::new(false, 1, Places::Five), "0.00001")?;
    prints(
        &rt,
        heap,
        Decimal::new(false, 10_000_000, Places::Five),
        "100.00000",
    )?;
    prints(&rt, heap, Decimal::new(true, 5, Places::Two), "-0.05")?;
    prints(&rt, heap, Decimal::new(true, 1_234, Places::Two), "-12.34")?;
    prints(&rt, heap, Decimal::new(true, 0, Places::Two), "0.00")?;
    prints(&rt, heap, Decimal::new(false, 121, Places::One), "12.1")
}

fn reads(rt: &impl Abort, heap: Global, text: &[u8], bytes: &[u8]) -> Result<(), Fail> {
    let read = bytes_of_hex(heap, text)?;
    assert_eq!(rt; read.as_slice(), bytes);
    Ok(())
}

fn refused(rt: &impl Abort, heap: Global, text: &[u8], error: HexError) -> Result<(), Fail> {
    match bytes_of_hex(heap, text) {
        Ok(_) => Err(Fail::new("bytes where there are none")),
        Err(said) => {
            assert_eq!(rt; said, error);
            Ok(())
        },
    }
}

#[test]
fn hexadecimal(rt: HostRuntime) -> Result<(), Fail> {
    let heap = rt.alloc();
    reads(&rt, heap, b"", &[])?;
    reads(&rt, heap, b"00 fF\t4a\r\n", &[0, 255, 74])?;
    reads(&rt, heap, b"4\n8", &[72])?;
    reads(&rt, heap, b"4\n  # zz 1\n8 ", &[72])?;
    reads(&rt, heap, b"#4", &[])?;
    refused(&rt, heap, b"4", HexError::OddDigits)?;
    refused(&rt, heap, b"48 # zz", HexError::NotHex)?;
    refused(&rt, heap, b"4g4", HexError::NotHex)?;
    refused(&rt, heap, b"/:@G`", HexError::NotHex)
}
