//! Rows from their terms.
ghost use Rattle.std.specs.Prelude.{◌≡◌, IfOk, map};
ghost use Rattle.std.specs.Option.{option_map};
ghost use Rattle.erl_term.specs.Value.{members_of, value_of};
ghost use Rattle.worker_table.specs.InMemory.{old_of, row_of};
ghost use Rattle.worker_table.specs.Rows.{on_row, on_in, add_in, stop_in, change_in, down_in, old_in, move_in, moves_in, row_in, rows_in};

use crate::Old;
use crate::parts::{number_in, tagged_in};
use crate::row::Row;
use erl_term::Term;
use rel_files::parts::{four, is_word, list_in, pair_in, three, two};
use rel_files::text::version_or_empty;
use std::alloc::{AllocError, Global};

fn on_in(members: &[Term]) -> Option<Row>
    ensures { option_map row_of result ≡ on_in (members_of members.now) }
{
    let (state, input, next, reply) = four(members)?;
    let state = number_in(state)?;
    let input = number_in(input)?;
    on_row(state, input, next, reply)
}

// What such a row leads to.
fn on_row(state: u32, input: u32, next: &Term, reply: &Term) -> Option<Row>
    ensures { option_map row_of result
        ≡ on_row state input (value_of next.now) (value_of reply.now) }
{
    let next = number_in(next)?;
    let reply = number_in(reply)?;
    Some(Row::On(state, input, next, reply))
}

fn add_in(members: &[Term]) -> Option<Row>
    ensures { option_map row_of result ≡ add_in (members_of members.now) }
{
    let (input, summand) = two(members)?;
    let input = number_in(input)?;
    let summand = number_in(summand)?;
    Some(Row::Add(input, summand))
}

fn stop_in(members: &[Term]) -> Option<Row>
    ensures { option_map row_of result ≡ stop_in (members_of members.now) }
{
    let (state, input, reply) = three(members)?;
    let state = number_in(state)?;
    let input = number_in(input)?;
    let reply = number_in(reply)?;
    Some(Row::Stop(state, input, reply))
}

// `Vsn` or `{down, Vsn}`.
fn old_in(alloc: Global, term: &Term) -> Result<Option<Old>, AllocError>
    ensures { IfOk result (λ old. option_map old_of old ≡ old_in (value_of term.now)) }
{
    match term {
        Term::Tuple(members) => down_in(alloc, members),
        _ => match version_or_empty(alloc, term)? {
            Some(vsn) => Ok(Some(Old::Up(vsn))),
            None => Ok(None),
        },
    }
}

// `down, Vsn`.
fn down_in(alloc: Global, members: &[Term]) -> Result<Option<Old>, AllocError>
    ensures { IfOk result (λ old. option_map old_of old ≡ down_in (members_of members.now)) }
{
    let Some((word, vsn)) = two(members) else {
        return Ok(None);
    };
    if !is_word(word, "down") {
        return Ok(None);
    }
    match version_or_empty(alloc, vsn)? {
        Some(vsn) => Ok(Some(Old::Down(vsn))),
        None => Ok(None),
    }
}

// `{S, N}`.
fn move_in(term: &Term) -> Option<(u32, u32)>
    ensures { result ≡ move_in (value_of term.now) }
{
    let (from, to) = pair_in(term)?;
    let from = number_in(from)?;
    let to = number_in(to)?;
    Some((from, to))
}

fn moves_in(alloc: Global, terms: &[Term]) -> Result<Option<Vec<(u32, u32)>>, AllocError>
    ensures { IfOk result (λ moves.
        option_map (λ v. v.items) moves ≡ moves_in (members_of terms.now)) }
{
    let mut moves = Vec::with_capacity(alloc, terms.len())?;
    for term in terms {
        let Some(pair) = move_in(term) else {
            return Ok(None);
        };
        moves.push(pair)?;
    }
    Ok(Some(moves))
}

fn change_in(alloc: Global, members: &[Term]) -> Result<Option<Row>, AllocError>
    ensures { IfOk result (λ row. option_map row_of row ≡ change_in (members_of members.now)) }
{
    let Some((old, extra, moves)) = three(members) else {
        return Ok(None);
    };
    let Some(old) = old_in(alloc, old)? else {
        return Ok(None);
    };
    let Some(moves) = list_in(moves) else {
        return Ok(None);
    };
    let Some(moves) = moves_in(alloc, moves)? else {
        return Ok(None);
    };
    Ok(Some(Row::Change(old, extra.clone()?, moves)))
}

fn row_in(alloc: Global, term: &Term) -> Result<Option<Row>, AllocError>
    ensures { IfOk result (λ row. option_map row_of row ≡ row_in (value_of term.now)) }
{
    let Some((word, members)) = tagged_in(term) else {
        return Ok(None);
    };
    match word {
        "on" => Ok(on_in(members)),
        "add" => Ok(add_in(members)),
        "stop" => Ok(stop_in(members)),
        "change" => change_in(alloc, members),
        _ => Ok(None),
    }
}

pub(crate) fn rows_in(alloc: Global, terms: &[Term]) -> Result<Option<Vec<Row>>, AllocError>
    ensures { IfOk result (λ rows.
        option_map (λ v. map row_of v.items) rows ≡ rows_in (members_of terms.now)) }
{
    let mut rows = Vec::with_capacity(alloc, terms.len())?;
    for term in terms {
        let Some(row) = row_in(alloc, term)? else {
            return Ok(None);
        };
        rows.push(row)?;
    }
    Ok(Some(rows))
}
