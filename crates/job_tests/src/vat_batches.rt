// One vat and the bare theory: batches, plans and rules.
use crate::outcome::answers;
use std::test::Fail;
use theories::bare::Bare;
use theories::one_vat::OneVat;
use theories::parts::{Batch, Pair};
use theories::theory::Theory;

// Batches of lengths 3 and 2 that start at the first two variables.
fn two_batches() -> Result<OneVat, Fail> {
    let mut vat = OneVat::new();
    vat.add(Batch {
        start: 0,
        duration: 3,
    })?;
    vat.add(Batch {
        start: 1,
        duration: 2,
    })?;
    Ok(vat)
}

#[test]
fn batches(rt: HostRuntime) -> Result<(), Fail> {
    let mut vat = OneVat::new();
    let cases: [(u8, u32, usize); 4] = [(16, 0, 0), (255, 1, 0), (15, 0, 1), (0, 1_000_001, 1)];
    for (start, duration, spot) in cases {
        answers(&rt, vat.add(Batch { start, duration }), 3, spot)?;
    }
    for start in 0..16u8 {
        vat.add(Batch {
            start,
            duration: 1_000_000,
        })?;
    }
    let more = Batch {
        start: 0,
        duration: 1,
    };
    answers(&rt, vat.add(more), 4, 0)?;
    assert_eq!(rt; vat.batches().len(), 16);
    Ok(())
}

#[test]
fn admitted_plans(rt: HostRuntime) -> Result<(), Fail> {
    let vat = two_batches()?;
    let cases: [(&[i32], bool); 5] = [
        (&[0, 3], true),
        (&[2, 0], true),
        (&[0, 2], false),
        (&[-3], true),
        (&[], false),
    ];
    for (plan, admitted) in cases {
        assert_eq!(rt; vat.admitted(plan), admitted);
    }
    assert_eq!(rt; Bare.admitted(&[0, 2]), true);
    Ok(())
}

#[test]
fn the_rule_of_two_batches(rt: HostRuntime) -> Result<(), Fail> {
    let vat = two_batches()?;
    let clue = OneVat::clue(&[0, 1])?;
    assert_eq!(rt; vat.premises(&clue)?, 1);
    let premise = vat.premise(&clue, 0)?;
    assert_eq!(rt; (premise.first, premise.second, premise.most), (1, 0, 2));
    let conclusion = vat.conclusion(&clue)?;
    assert_eq!(rt;
        (conclusion.first, conclusion.second, conclusion.most),
        (1, 0, -2)
    );
    answers(&rt, vat.premise(&clue, 1), 8, 0)
}

#[test]
fn clues_without_rule(rt: HostRuntime) -> Result<(), Fail> {
    let vat = two_batches()?;
    for (one, other) in [(0, 0), (1, 1), (0, 2), (2, 0), (255, 1)] {
        let clue = Pair { one, other };
        answers(&rt, vat.premises(&clue), 8, 0)?;
        answers(&rt, vat.premise(&clue, 0), 8, 0)?;
        answers(&rt, vat.conclusion(&clue), 8, 0)?;
    }
    answers(&rt, OneVat::clue(&[0]), 8, 0)?;
    answers(&rt, Bare::clue(&[0]), 8, 0)?;
    answers(&rt, Bare.premises(&()), 8, 0)?;
    answers(&rt, Bare.premise(&(), 0), 8, 0)?;
    answers(&rt, Bare.conclusion(&()), 8, 0)
}
