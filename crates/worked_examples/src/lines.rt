// Lines that the program does not come to print.
use console::{Added, clash_line, following_lines, held_lines};
use place_book::{Draft, Refusal};
use std::test::Fail;
use table::{Answer, Table};

#[test]
fn answers_to_a_new_place(rt: HostRuntime) -> Result<(), Fail> {
    assert!(rt; Added(Ok(255)).to_string(rt.alloc())?.as_str() == "place 255");
    assert!(rt;
        Added(Err(Refusal::NoParent(1000)))
            .to_string(rt.alloc())?
            .as_str()
            == "refused 4 1000"
    );
    assert!(rt; Added(Err(Refusal::Full)).to_string(rt.alloc())?.as_str() == "refused 5 256");
    Ok(())
}

#[test]
fn what_follows(rt: HostRuntime) -> Result<(), Fail> {
    let book = Draft::new().seal();
    assert!(rt; following_lines(rt.alloc(), &book, 2304)?.as_str() == "2304\nend 1");
    assert!(rt;
        following_lines(rt.alloc(), &book, 2305)?.as_str() == "end 0",
        "no place 1 stands"
    );
    assert!(rt;
        clash_line(rt.alloc(), &book, 2305, 2304)?.as_str() == "2305 and 2304 do not clash"
    );
    Ok(())
}

#[test]
fn answers_of_a_table(rt: HostRuntime) -> Result<(), Fail> {
    let heap = rt.alloc();
    assert!(rt; Answer::Changed(Ok((65536, 0))).to_string(heap)?.as_str() == "ok 65536 0");
    assert!(rt;
        Answer::Changed(Err(table::Refusal::TooLong(257)))
            .to_string(heap)?
            .as_str()
            == "refused 6 257"
    );
    assert!(rt;
        Answer::Changed(Err(table::Refusal::Unknown(0)))
            .to_string(heap)?
            .as_str()
            == "refused 7 0"
    );
    assert!(rt;
        Answer::Changed(Err(table::Refusal::Clash((3, 12))))
            .to_string(heap)?
            .as_str()
            == "refused 8 3 12"
    );
    assert!(rt;
        Answer::Changed(Err(table::Refusal::Full(4)))
            .to_string(heap)?
            .as_str()
            == "refused 9 4"
    );
    assert!(rt; Answer::Changed(Ok((1, 2))).to_string(heap)?.as_str() == "ok 1 2");
    assert!(rt; Answer::Number(7).to_string(heap)?.as_str() == "7");
    assert!(rt; Answer::Held(true).to_string(heap)?.as_str() == "yes");
    assert!(rt; Answer::Held(false).to_string(heap)?.as_str() == "no");
    assert!(rt; Answer::Fact(Some(2304)).to_string(heap)?.as_str() == "2304");
    assert!(rt; Answer::Fact(None).to_string(heap)?.as_str() == "none");
    let mut cells = [0; 2];
    assert!(rt; held_lines(heap, &Table::over(&mut cells))?.as_str() == "end 0");
    Ok(())
}
