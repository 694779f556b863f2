// Settling, and its last code.
use control::{Settled, SettledBy, settle};
use method::Question;
use std::array;
use std::test::Fail;

fn settled(by: SettledBy, codes: u32) -> Option<Settled> {
    Some(Settled { by, codes })
}

// Two hundred codes, of which no two neighbours agree.
fn restless() -> [i32; 200] {
    array::from_fn(|k| if k % 2 == 0 { 100 } else { 0 })
}

#[test]
fn the_agreement_is_asked(rt: HostRuntime) {
    assert_eq!(rt; settle(-1, &[]), Err(Question::AgreementInRange));
    assert_eq!(rt; settle(10, &[]), Err(Question::AgreementInRange));
    assert_eq!(rt; settle(i32::MIN, &[]), Err(Question::AgreementInRange));
    assert_eq!(rt; settle(0, &[]), Ok(None));
    assert_eq!(rt; settle(9, &[]), Ok(None));
}

#[test]
fn three_codes_agree_each_with_each(rt: HostRuntime) -> Result<(), Fail> {
    assert_eq!(rt; settle(1, &[10, 11])?, None);
    // 10 and 12 differ by 2
    assert_eq!(rt; settle(1, &[10, 11, 12])?, None);
    assert_eq!(rt;
        settle(1, &[10, 11, 12, 12])?,
        settled(SettledBy::Agreement, 4)
    );
    assert_eq!(rt;
        settle(2, &[10, 11, 12, 12])?,
        settled(SettledBy::Agreement, 3)
    );
    assert_eq!(rt; settle(0, &[7, 7, 7])?, settled(SettledBy::Agreement, 3));
    assert_eq!(rt; settle(9, &[i32::MIN, i32::MAX, 0])?, None);
    Ok(())
}

#[test]
fn the_two_hundredth_code_is_the_last(rt: HostRuntime) -> Result<(), Fail> {
    let codes = restless();
    assert_eq!(rt; settle(9, &codes[0..199])?, None);
    assert_eq!(rt; settle(9, &codes)?, settled(SettledBy::LastCode, 200));
    Ok(())
}

#[test]
fn the_last_code_may_bring_the_agreement(rt: HostRuntime) -> Result<(), Fail> {
    let mut codes = restless();
    codes[197] = 50;
    codes[198] = 50;
    codes[199] = 50;
    assert_eq!(rt; settle(9, &codes)?, settled(SettledBy::Agreement, 200));
    Ok(())
}
