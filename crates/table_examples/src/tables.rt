// A table over the plant of places 1 under 0, 2 and 3 under 1, and 4 under 0. "Thing 9 in 2" has the code 9 * 256 + 2 = 2306.
ghost use Rattle.std.specs.Prelude.{◌≤◌};

use place_book::{Draft, PlaceBook};
use std::array;
use std::test::Fail;
use table::{Answer, Call, Refusal, Table, replay};

// (The crate of the other examples has it too: to share these lines would take a public function with a contract.)
fn plant() -> Result<PlaceBook, place_book::Refusal> {
    let mut draft = Draft::new();
    draft.add(0)?;
    draft.add(1)?;
    draft.add(1)?;
    draft.add(0)?;
    Ok(draft.seal())
}

// `N` things in the plant, from thing `first` on.
fn things<const N: usize>(first: u16) -> [u64; N]
    requires { N ≤ 65536 }
{
    array::from_fn(|i| (u64::from(first) + i as u64) * 256)
}

#[test]
fn a_thing_is_moved(rt: HostRuntime) -> Result<(), Fail> {
    let book = plant()?;
    let mut cells = [7; 4];
    let mut table = Table::over(&mut cells);
    assert_eq!(rt; table.count_held(), 0);
    assert_eq!(rt; table.deliver(&book, &[2306]), Ok((0, 3)));
    assert_eq!(rt; table.nth_held(0), Some(2304));
    assert_eq!(rt; table.nth_held(1), Some(2305));
    assert_eq!(rt; table.nth_held(2), Some(2306));
    assert_eq!(rt; table.nth_held(3), None);
    assert_eq!(rt; table.facts(), [2304, 2305, 2306].as_slice());
    assert_eq!(rt; table.deliver(&book, &[2307]), Ok((1, 1)));
    assert!(rt; !table.is_held(2306));
    assert!(rt;
        table.is_held(2305),
        "9 in 1 stays: it does not clash with 9 in 3"
    );
    assert_eq!(rt; table.deliver(&book, &[2308]), Ok((2, 1)));
    assert_eq!(rt; table.deliver(&book, &[2308, 2308, 2304]), Ok((0, 0)));
    assert_eq!(rt; table.count_held(), 2);
    assert_eq!(rt; table.withdraw(&book, &[2308]), Ok((1, 0)));
    assert_eq!(rt; table.withdraw(&book, &[2308]), Ok((0, 0)));
    assert_eq!(rt; table.withdraw(&book, &[2304]), Ok((1, 0)));
    assert_eq!(rt; table.count_held(), 0);
    assert_eq!(rt; cells, [0; 4]);
    Ok(())
}

#[test]
fn what_leads_to_a_named_fact_goes_with_it(rt: HostRuntime) -> Result<(), Fail> {
    let book = plant()?;
    let mut cells = [0; 8];
    let mut table = Table::over(&mut cells);
    assert_eq!(rt;
        table.deliver(&book, &[2306, 2052]),
        Ok((0, 5)),
        "9 in 2 and 8 in 4"
    );
    assert_eq!(rt;
        table.withdraw(&book, &[2305]),
        Ok((2, 0)),
        "9 in 1, and in 2"
    );
    assert!(rt; table.is_held(2304));
    assert!(rt; table.is_held(2052));
    assert_eq!(rt; cells[0], 2048);
    assert_eq!(rt; cells[1], 2052);
    assert_eq!(rt; cells[2], 2304);
    assert_eq!(rt; cells[3], 0);
    assert_eq!(rt; cells[4], 0);
    Ok(())
}

#[test]
fn at_most_256_codes(rt: HostRuntime) -> Result<(), Fail> {
    let book = plant()?;
    let mut cells = [0; 300];
    let mut table = Table::over(&mut cells);
    let mut list = things::<257>(0);
    assert_eq!(rt; table.deliver(&book, &list), Err(Refusal::TooLong(257)));
    assert_eq!(rt; table.withdraw(&book, &list), Err(Refusal::TooLong(257)));
    assert_eq!(rt; table.count_held(), 0);
    assert_eq!(rt; table.deliver(&book, &list[0..256]), Ok((0, 256)));
    assert_eq!(rt; table.withdraw(&book, &list[0..256]), Ok((256, 0)));
    list[0] = 5;
    assert_eq!(rt;
        table.deliver(&book, &list),
        Err(Refusal::TooLong(257)),
        "too long before unknown"
    );
    Ok(())
}

#[test]
fn refusals_in_their_order(rt: HostRuntime) -> Result<(), Fail> {
    let book = plant()?;
    let mut cells = [0; 3];
    let mut table = Table::over(&mut cells);
    assert_eq!(rt; table.deliver(&book, &[2306]), Ok((0, 3)));
    assert_eq!(rt;
        table.deliver(&book, &[2306, 2308, 2309, 5]),
        Err(Refusal::Unknown(2))
    );
    assert_eq!(rt;
        table.withdraw(&book, &[2306, 2309]),
        Err(Refusal::Unknown(1))
    );
    assert_eq!(rt;
        table.deliver(&book, &[2304, 2305, 2306, 2308, 2307]),
        Err(Refusal::Clash((1, 3))),
        "9 in 1 and in 4; a clash before want of cells"
    );
    assert_eq!(rt;
        table.deliver(&book, &[0, 2306]),
        Err(Refusal::Full(4)),
        "0 in 0 comes, and nothing goes"
    );
    assert_eq!(rt;
        table.deliver(&book, &[0, 2307]),
        Err(Refusal::Full(4)),
        "0 in 0 and 9 in 3 come, 9 in 2 goes"
    );
    assert_eq!(rt;
        table.deliver(&book, &[0, 2308]),
        Ok((2, 2)),
        "9 in 1 and in 2 go"
    );
    assert_eq!(rt; table.deliver(&book, &[0, 2306]), Err(Refusal::Full(4)));
    assert_eq!(rt; cells, [0, 2304, 2308]);
    assert_eq!(rt; Refusal::TooLong(257).number(), 6);
    assert_eq!(rt; Refusal::Unknown(0).number(), 7);
    assert_eq!(rt; Refusal::Clash((0, 0)).number(), 8);
    assert_eq!(rt; Refusal::Full(4).number(), 9);
    Ok(())
}

#[test]
fn no_cells(rt: HostRuntime) -> Result<(), Fail> {
    let book = plant()?;
    let mut cells = [0; 0];
    let mut table = Table::over(&mut cells);
    assert_eq!(rt; table.deliver(&book, &[]), Ok((0, 0)));
    assert_eq!(rt; table.deliver(&book, &[2306]), Err(Refusal::Full(3)));
    assert_eq!(rt; table.withdraw(&book, &[2306]), Ok((0, 0)));
    assert_eq!(rt; table.nth_held(0), None);
    assert!(rt; table.facts().is_empty());
    Ok(())
}

#[test]
fn the_cells_that_are_used(rt: HostRuntime) -> Result<(), Fail> {
    let book = plant()?;
    let mut cells = [7; 65537];
    let mut table = Table::over(&mut cells);
    assert_eq!(rt; table.deliver(&book, &[2308]), Ok((0, 2)));
    assert_eq!(rt; cells[0], 2304);
    assert_eq!(rt; cells[1], 2308);
    assert_eq!(rt; cells[2], 0);
    assert_eq!(rt; cells[65535], 0);
    assert_eq!(rt; cells[65536], 7, "beyond the first 65,536");
    Ok(())
}

#[test]
fn the_last_of_65536_cells(rt: HostRuntime) -> Result<(), Fail> {
    let book = Draft::new().seal();
    let mut cells = [7; 65537];
    let mut table = Table::over(&mut cells);
    for row in 0u8..=255 {
        assert_eq!(rt;
            table.deliver(&book, &things::<256>(u16::from(row) * 256)),
            Ok((0, 256))
        );
    }
    assert_eq!(rt; table.count_held(), 65536);
    assert_eq!(rt; table.nth_held(65535), Some(16776960));
    assert_eq!(rt;
        table.deliver(&plant()?, &[2305]),
        Err(Refusal::Full(65537))
    );
    assert_eq!(rt; cells[65535], 16776960);
    assert_eq!(rt; cells[65536], 7);
    Ok(())
}

#[test]
fn a_code_that_the_book_does_not_know_stays(rt: HostRuntime) -> Result<(), Fail> {
    let book = plant()?;
    let other = Draft::new().seal();
    let mut cells = [0; 8];
    let mut table = Table::over(&mut cells);
    assert_eq!(rt; table.deliver(&book, &[2308]), Ok((0, 2)));
    assert_eq!(rt; table.deliver(&other, &[2304, 2048]), Ok((0, 1)));
    assert_eq!(rt; table.withdraw(&other, &[2304]), Ok((1, 0)));
    assert!(rt; table.is_held(2308), "no place 4 in the other book");
    Ok(())
}

#[test]
fn a_journal_is_replayed(rt: HostRuntime) -> Result<(), Fail> {
    let book = plant()?;
    let mut cells = [7; 3];
    let calls = [
        Call::Deliver(&[2306]),
        Call::IsHeld(2305),
        Call::Deliver(&[2306, 2308]),
        Call::Deliver(&[0]),
        Call::CountHeld,
        Call::NthHeld(2),
        Call::Withdraw(&[2306]),
        Call::IsHeld(2306),
        Call::NthHeld(2),
    ];
    let mut answers = [None; 10];
    answers[9] = Some(Answer::Number(9));
    let table = replay(&book, &mut cells, &calls, &mut answers);
    assert_eq!(rt; table.count_held(), 2);
    assert_eq!(rt; answers[0], Some(Answer::Changed(Ok((0, 3)))));
    assert_eq!(rt; answers[1], Some(Answer::Held(true)));
    assert_eq!(rt;
        answers[2],
        Some(Answer::Changed(Err(Refusal::Clash((0, 1)))))
    );
    assert_eq!(rt; answers[3], Some(Answer::Changed(Err(Refusal::Full(4)))));
    assert_eq!(rt; answers[4], Some(Answer::Number(3)));
    assert_eq!(rt; answers[5], Some(Answer::Fact(Some(2306))));
    assert_eq!(rt; answers[6], Some(Answer::Changed(Ok((1, 0)))));
    assert_eq!(rt; answers[7], Some(Answer::Held(false)));
    assert_eq!(rt; answers[8], Some(Answer::Fact(None)));
    assert_eq!(rt;
        answers[9],
        Some(Answer::Number(9)),
        "no call is left for it"
    );
    assert_eq!(rt; cells[1], 2305);
    assert_eq!(rt; cells[2], 0);
    Ok(())
}

#[test]
fn a_table_is_rebuilt(rt: HostRuntime) -> Result<(), Fail> {
    let book = plant()?;
    let mut cells = [7; 3];
    let calls = [Call::Deliver(&[2306]), Call::Withdraw(&[2306])];
    let mut answers = [None; 1];
    let mut table = replay(&book, &mut cells, &calls, &mut answers);
    assert_eq!(rt; answers[0], Some(Answer::Changed(Ok((0, 3)))));
    assert_eq!(rt;
        table.count_held(),
        2,
        "all calls are carried out, with one place for their answers"
    );
    assert_eq!(rt; table.deliver(&book, &[2307]), Ok((0, 1)));
    assert_eq!(rt; cells[2], 2307);
    Ok(())
}
