//! Orders of some tables.

use pyc_class_ids::UnknownMro;
use pyc_mro::{Base, Mro, MroTable};
use std::alloc::{AllocError, Global};
use std::fmt::Write;
use std::test::Fail;

/// The table of classes with these bases. The only error is that memory runs out.
fn table(alloc: Global, rows: &[&[usize]]) -> Result<Vec<Vec<Base>>, AllocError> {
    let mut bases = Vec::new(alloc);
    for row in rows {
        let mut written = Vec::new(alloc);
        for class in *row {
            written.push(Base::Class(*class))?;
        }
        bases.push(written)?;
    }
    Ok(bases)
}

/// The classes of an order, and why it is not known.
fn shown(alloc: Global, order: &Mro<'_>) -> Result<String, Fail> {
    let mut shown = String::new(alloc);
    for class in order.classes {
        write!(shown, "{class} ")?;
    }
    shown.push_str(match order.unknown {
        Some(UnknownMro::Base) => "base",
        Some(UnknownMro::Cycle) => "cycle",
        Some(UnknownMro::Merge) => "merge",
        None => "known",
    })?;
    Ok(shown)
}

/// The orders of the table with these rows. The only error is that memory runs out.
fn orders_of(alloc: Global, rows: &[&[usize]]) -> Result<MroTable, AllocError> {
    MroTable::build(alloc, &table(alloc, rows)?)
}

/// The order of a class of the table with these rows.
fn order_of(alloc: Global, rows: &[&[usize]], class: usize) -> Result<String, Fail> {
    shown(alloc, &orders_of(alloc, rows)?.order(class))
}

/// O; F(O), E(O), D(O); C(D, F), B(D, E); A(B, C)
const FIRST: &[&[usize]] = &[&[], &[0], &[0], &[0], &[3, 1], &[3, 2], &[5, 4]];

/// O; F(O), E(O), D(O); C(D, F), B(E, D); A(B, C)
const SECOND: &[&[usize]] = &[&[], &[0], &[0], &[0], &[3, 1], &[2, 3], &[5, 4]];

/// O; A(O) to E(O); K1(A, B, C), K2(D, B, E), K3(D, A); Z(K1, K2, K3)
const THIRD: &[&[usize]] = &[
    &[],
    &[0],
    &[0],
    &[0],
    &[0],
    &[0],
    &[1, 2, 3],
    &[4, 2, 5],
    &[4, 1],
    &[6, 7, 8],
];

/// O; F(O); E(F); G(F, E); A(O), B(O); X(A, B), Y(B, A); Z(X, Y); P(Q), Q(P); R(Q); S on no class of the table
const NOT_KNOWN: &[&[usize]] = &[
    &[],
    &[0],
    &[1],
    &[1, 2],
    &[0],
    &[0],
    &[4, 5],
    &[5, 4],
    &[6, 7],
    &[10],
    &[9],
    &[10],
    &[99],
];

/// Tables and classes, with their orders or why these are not known.
const ORDERS: &[(&[&[usize]], usize, &str)] = &[
    (FIRST, 4, "4 3 1 0 known"),
    (FIRST, 6, "6 5 4 3 2 1 0 known"),
    (FIRST, 7, "base"),
    (SECOND, 6, "6 5 2 4 3 1 0 known"),
    (THIRD, 9, "9 6 7 8 4 1 2 3 5 0 known"),
    (NOT_KNOWN, 3, "3 merge"),
    (NOT_KNOWN, 7, "7 5 4 0 known"),
    (NOT_KNOWN, 8, "8 merge"),
    (NOT_KNOWN, 9, "9 cycle"),
    (NOT_KNOWN, 10, "10 cycle"),
    (NOT_KNOWN, 11, "11 base"),
    (NOT_KNOWN, 12, "12 base"),
];

/// The first three tables are the worked examples.
#[test]
fn orders_of_tables(rt: HostRuntime) -> Result<(), Fail> {
    for (rows, class, want) in ORDERS {
        let order = order_of(rt.alloc(), rows, *class)?;
        assert_eq!(rt; order.as_str(), *want);
    }
    Ok(())
}
