// A plant with places 1 under 0, 2 and 3 under 1, and 4 under 0. "Thing 9 in 2" has the code 9 * 256 + 2 = 2306.
use book::{Book, Consequences, first_against, first_clash, first_unknown};
use place_book::{Draft, PlaceBook, Refusal};
use std::test::Fail;

fn plant() -> Result<PlaceBook, Refusal> {
    let mut draft = Draft::new();
    draft.add(0)?;
    draft.add(1)?;
    draft.add(1)?;
    draft.add(0)?;
    Ok(draft.seal())
}

#[test]
fn a_new_place_gets_the_next_number(rt: HostRuntime) {
    let mut draft = Draft::new();
    assert_eq!(rt; draft.place_count(), 1);
    assert_eq!(rt; draft.add(0), Ok(1));
    assert_eq!(rt; draft.add(1), Ok(2));
    assert_eq!(rt; draft.place_count(), 3);
    assert_eq!(rt; draft.parent(2), Some(1));
    assert_eq!(rt; draft.parent(0), None);
    assert_eq!(rt; draft.parent(3), None);
    let book = draft.seal();
    assert_eq!(rt; book.place_count(), 3);
    assert_eq!(rt; book.parent(2), Some(1));
    assert_eq!(rt; book.parent(3), None);
}

#[test]
fn a_missing_parent_is_refused_first(rt: HostRuntime) {
    let mut draft = Draft::new();
    assert_eq!(rt; draft.add(1), Err(Refusal::NoParent(1)));
    assert_eq!(rt; draft.place_count(), 1);
    for place in 1..256 {
        assert_eq!(rt; draft.add(0), Ok(place));
    }
    assert_eq!(rt; draft.add(256), Err(Refusal::NoParent(256)));
    assert_eq!(rt; draft.add(255), Err(Refusal::Full));
    assert_eq!(rt; draft.place_count(), 256);
    assert_eq!(rt; Refusal::NoParent(9).number(), 4);
    assert_eq!(rt; Refusal::NoParent(9).returned(), 9);
    assert_eq!(rt; Refusal::Full.number(), 5);
    assert_eq!(rt; Refusal::Full.returned(), 256);
}

#[test]
fn the_places_above_follow(rt: HostRuntime) -> Result<(), Fail> {
    let book = plant()?;
    assert_eq!(rt; book.fact(9, 2), Some(2306));
    assert_eq!(rt; book.parts(2306), Some((9, 2)));
    assert_eq!(rt; book.count_following(2306), 3);
    assert_eq!(rt; book.nth_following(2306, 0), Some(2304));
    assert_eq!(rt; book.nth_following(2306, 1), Some(2305));
    assert_eq!(rt; book.nth_following(2306, 2), Some(2306));
    assert_eq!(rt; book.nth_following(2306, 3), None);
    let mut facts = Consequences::of(&book, 2306);
    assert_eq!(rt; facts.next(), Some(2304));
    assert_eq!(rt; facts.next(), Some(2305));
    assert_eq!(rt; facts.next(), Some(2306));
    assert_eq!(rt; facts.next(), None);
    assert_eq!(rt;
        Consequences::of(&book, 2309).next(),
        None,
        "no place 5 stands"
    );
    assert!(rt; book.follows(2306, 2305));
    assert!(rt; book.follows(2306, 2306));
    assert!(rt; !book.follows(2305, 2306));
    assert!(rt; !book.follows(2306, 2049), "another thing");
    assert!(rt; book.is_within(2, 1));
    assert!(rt; !book.is_within(2, 4));
    assert_eq!(rt; <PlaceBook as Book>::MOST_CONSEQUENCES, 256);
    Ok(())
}

#[test]
fn one_thing_in_two_halls_clashes(rt: HostRuntime) -> Result<(), Fail> {
    let book = plant()?;
    assert!(rt; book.clash(2306, 2308), "9 in 2 and in 4");
    assert!(rt; book.clash(2308, 2306), "9 in 4 and in 2");
    assert!(rt; book.clash(2306, 2307), "9 in 2 and in 3, under one parent");
    assert!(rt; !book.clash(2306, 2305), "9 in 2 and in 1");
    assert!(rt; !book.clash(2306, 2306), "9 in 2, twice");
    assert!(rt; !book.clash(2306, 2052), "9 in 2 and 8 in 4");
    Ok(())
}

#[test]
fn of_an_unknown_code_nothing_is_said(rt: HostRuntime) -> Result<(), Fail> {
    let book = plant()?;
    assert!(rt; book.knows(2308));
    assert!(rt; !book.knows(2309), "no place 5 stands");
    assert_eq!(rt; book.fact(9, 5), None);
    assert_eq!(rt; book.parts(2309), None);
    assert!(rt; !book.follows(2309, 2309));
    assert!(rt; !book.follows(2306, 2309));
    assert!(rt; !book.clash(2309, 2306));
    assert!(rt; !book.clash(2306, 2309));
    assert_eq!(rt; book.count_following(2309), 0);
    assert_eq!(rt; book.nth_following(2309, 0), None);
    assert!(rt; book.knows(16776964), "thing 65,535 in 4");
    assert!(rt; !book.knows(16777216), "no thing 65,536");
    assert_eq!(rt; book.fact(65535, 4), Some(16776964));
    assert_eq!(rt; book.fact(65536, 0), None);
    assert!(rt; !book.is_within(5, 0));
    Ok(())
}

#[test]
fn lists_are_read_in_order(rt: HostRuntime) -> Result<(), Fail> {
    let book = plant()?;
    assert_eq!(rt; first_clash(&book, &[2306, 2305, 2308, 2307]), Some((0, 2)));
    assert_eq!(rt; first_clash(&book, &[2304, 2306, 2305]), None);
    assert_eq!(rt; first_clash(&book, &[]), None);
    assert_eq!(rt; first_against(&book, &[2304, 2306, 2305], 2308), Some(1));
    assert_eq!(rt; first_against(&book, &[2304, 2308], 2308), None);
    assert_eq!(rt; first_unknown(&book, &[2304, 2309, 2310]), Some(1));
    assert_eq!(rt; first_unknown(&book, &[2304, 2308]), None);
    Ok(())
}

#[test]
fn a_chain_of_256_places(rt: HostRuntime) {
    let mut draft = Draft::new();
    for place in 1..256 {
        assert_eq!(rt; draft.add(place - 1), Ok(place));
    }
    let book = draft.seal();
    assert_eq!(rt; book.count_following(255), 256);
    assert_eq!(rt; book.nth_following(255, 254), Some(254));
    assert_eq!(rt; book.nth_following(255, 255), Some(255));
    assert_eq!(rt; book.nth_following(255, 256), None);
    assert!(rt; !book.clash(255, 100));
}
