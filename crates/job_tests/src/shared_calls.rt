// Shared results: calls, plans and rules.
use crate::outcome::answers;
use std::test::Fail;
use theories::parts::Call;
use theories::shared_results::SharedResults;
use theories::theory::Theory;

fn call(function: u8, first: u8, second: u8, res: u8) -> Call {
    Call {
        function,
        first,
        second,
        result: res,
    }
}

// f7(v0) = v1, f7(v2, v4) = v3 and f8(v0) = v3.
fn three_calls() -> Result<SharedResults, Fail> {
    let mut calls = SharedResults::new();
    calls.add(call(7, 0, 16, 1))?;
    calls.add(call(7, 2, 4, 3))?;
    calls.add(call(8, 0, 16, 3))?;
    Ok(calls)
}

#[test]
fn calls(rt: HostRuntime) -> Result<(), Fail> {
    let mut calls = SharedResults::new();
    let cases: [(u8, u8, u8, usize); 4] = [
        (16, 17, 16, 1),
        (0, 17, 16, 2),
        (15, 16, 16, 3),
        (0, 0, 255, 3),
    ];
    for (first, second, result, spot) in cases {
        answers(&rt, calls.add(call(0, first, second, result)), 3, spot)?;
    }
    for _ in 0..16 {
        calls.add(call(255, 15, 16, 15))?;
    }
    answers(&rt, calls.add(call(0, 0, 0, 0)), 4, 0)?;
    answers(&rt, calls.add(call(0, 16, 0, 0)), 3, 1)?;
    assert_eq!(rt; calls.calls().len(), 16);
    Ok(())
}

// An absent second reads 0, and so does a place past the plan's end.
#[test]
fn admitted_plans(rt: HostRuntime) -> Result<(), Fail> {
    let calls = three_calls()?;
    let cases: [(&[i32], bool); 6] = [
        (&[5, 1, 5, 1, 0], true),
        (&[5, 1, 5, 2, 0], false),
        (&[5, 1, 5, 2, 1], true),
        (&[5, 1, 4, 2, 0], true),
        (&[5, 1, 5, 2], false),
        (&[], true),
    ];
    for (plan, admitted) in cases {
        assert_eq!(rt; calls.admitted(plan), admitted);
    }
    Ok(())
}

#[test]
fn the_rule_of_two_calls(rt: HostRuntime) -> Result<(), Fail> {
    let calls = three_calls()?;
    let clue = SharedResults::clue(&[0, 1])?;
    assert_eq!(rt; calls.premises(&clue)?, 4);
    let places: [(usize, u8, u8); 4] = [(0, 0, 2), (1, 2, 0), (2, 16, 4), (3, 4, 16)];
    for (index, first, second) in places {
        let premise = calls.premise(&clue, index)?;
        assert_eq!(rt;
            (premise.first, premise.second, premise.most),
            (first, second, 0)
        );
    }
    let conclusion = calls.conclusion(&clue)?;
    assert_eq!(rt;
        (conclusion.first, conclusion.second, conclusion.most),
        (1, 3, 0)
    );
    answers(&rt, calls.premise(&clue, 4), 8, 0)
}

// Calls of two functions, or that are not there, have no rule; a call with itself has one.
#[test]
fn clues(rt: HostRuntime) -> Result<(), Fail> {
    let calls = three_calls()?;
    for pair in [[0, 2], [2, 1], [0, 3], [3, 0]] {
        let clue = SharedResults::clue(&pair)?;
        answers(&rt, calls.premises(&clue), 8, 0)?;
        answers(&rt, calls.premise(&clue, 0), 8, 0)?;
        answers(&rt, calls.conclusion(&clue), 8, 0)?;
    }
    let same = SharedResults::clue(&[2, 2])?;
    assert_eq!(rt; calls.premises(&same)?, 4);
    answers(&rt, SharedResults::clue(&[0, 1, 2]), 8, 0)
}
