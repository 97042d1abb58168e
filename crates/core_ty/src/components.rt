//! Ranks for declarations, by the circles in which they stand.

use crate::TypeDecl;
use crate::parts::{Part, parts_of};
use aen_base::{List, NoMem, at};
use std::alloc::Global;

/// A rank for each declaration, from 1: those that stand in one circle have one rank, and every
/// other declared type of a declaration's parts has a lower one. No clause rests on the ranks: who
/// uses them checks them.
pub(crate) fn ranks(
    alloc: Global,
    decls: &[TypeDecl],
    rows: &[List<bool>],
) -> Result<List<usize>, NoMem> {
    let mut links = empty_lists(alloc, decls)?;
    let mut users = empty_lists(alloc, decls)?;
    for user in 0..decls.len() {
        let parts = parts_of(alloc, rows, &decls[user])?;
        link(parts.as_slice(), user, &mut links, &mut users)?;
    }
    // what can reach a declaration is left before it; so from the last one left, the links stay in
    // its circle, or lead to what has a rank
    let mut found = zeros(alloc, decls.len())?;
    let mut order = List::new(alloc);
    for decl in 0..decls.len() {
        walk(alloc, users.as_slice(), decl, 1, &mut found, &mut order)?;
    }
    let mut ranks = zeros(alloc, decls.len())?;
    let mut rest = List::new(alloc);
    let mut rank = 0usize;
    while let Some(decl) = order.pop() {
        if let Some(0) = at(ranks.as_slice(), decl) {
            rank = rank.saturating_add(1);
            walk(alloc, links.as_slice(), decl, rank, &mut ranks, &mut rest)?;
        }
    }
    Ok(ranks)
}

fn empty_lists(alloc: Global, decls: &[TypeDecl]) -> Result<List<List<usize>>, NoMem> {
    let mut lists = List::new(alloc);
    for _decl in decls {
        lists.push(List::new(alloc))?;
    }
    Ok(lists)
}

fn zeros(alloc: Global, places: usize) -> Result<List<usize>, NoMem> {
    let mut numbers = List::new(alloc);
    for _place in 0..places {
        numbers.push(0usize)?;
    }
    Ok(numbers)
}

/// Enters the declared types of a declaration's parts as its links, and it as their user.
fn link(
    parts: &[Part],
    user: usize,
    links: &mut List<List<usize>>,
    users: &mut List<List<usize>>,
) -> Result<(), NoMem> {
    for part in parts {
        if let Part::Declared(decl) = part {
            let decl = decl.0 as usize;
            if let Some(list) = users.get_mut(decl) {
                list.push(user)?;
            }
            if let Some(list) = links.get_mut(user) {
                list.push(decl)?;
            }
        }
    }
    Ok(())
}

/// Gives this number to what has none yet among a declaration and all to which the links lead from
/// it; enters each in `left` after those that were found from it.
fn walk(
    alloc: Global,
    links: &[List<usize>],
    from: usize,
    number: usize,
    numbers: &mut List<usize>,
    left: &mut List<usize>,
) -> Result<(), NoMem> {
    let mut steps = List::new(alloc);
    steps.push((from, false))?;
    // the steps run out: each link is entered once at most
    for _turn in 0..usize::MAX {
        let Some((decl, leaves)) = steps.pop() else {
            break;
        };
        if leaves {
            left.push(decl)?;
        } else if take_number(numbers, decl, number) {
            steps.push((decl, true))?;
            if let Some(next) = at(links, decl) {
                enter(next.as_slice(), numbers.as_slice(), &mut steps)?;
            }
        }
    }
    Ok(())
}

/// Gives a declaration the number, if it has none; whether it had none.
fn take_number(numbers: &mut List<usize>, decl: usize, number: usize) -> bool {
    match numbers.get_mut(decl) {
        Some(place) => {
            if *place == 0 {
                *place = number;
                true
            } else {
                false
            }
        }
        None => false,
    }
}

/// Enters those without a number among the next steps.
fn enter(next: &[usize], numbers: &[usize], steps: &mut List<(usize, bool)>) -> Result<(), NoMem> {
    for decl in next {
        if let Some(0) = at(numbers, *decl) {
            steps.push((*decl, false))?;
        }
    }
    Ok(())
}
