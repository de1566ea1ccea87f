//! The table, and the steps on its words.
ghost use Rattle.std.specs.Prelude.{◌≡◌, ◌≢◌, ◌<◌, ◌==◌, ℕ, true, false, [], ◌∷◌, MatchBool};
ghost use Rattle.atomic_table.specs.Seated.{TableId, table_id_coded};
ghost use Rattle.proc_table.specs.Agrees.{slots};
ghost use Rattle.proc_history.specs.declared.value.Value.{Value};
ghost use Rattle.proc_table.specs.Parts.{part_of};
ghost use Rattle.proc_table.specs.Places.{hand};
ghost use Rattle.proc_table.specs.Steps.{Ready, Took, Missed, Adding, given, with_laid, Learnt};
ghost use Rattle.proc_table.specs.Views.{word_of, is_out, one_more, new_pass, joined};

use crate::View;
use crate::place::place_of;
use crate::rule::{Adds, Agreement, Cut, Give, Glue, Lay, Learn, Lift, Take};
use atomic_table::{Seat, Table};
use proc_history::Value;
use std::alloc::Global;
use std::marker::Model;

/// The processes of a node. Contracts see which table it is.
#[derive(Drop)]
pub struct ProcTable {
    pub(crate) table: Table<Value, View, (), Agreement, Global>,
}

impl Model for ProcTable {
    ghost use Rattle.std.specs.Prelude.{◌≡◌};
    ghost use Rattle.atomic_table.specs.Seated.{TableId, table_id_coded};
    ghost use Rattle.proc_table.specs.Agrees.{slots};

    ghost Value = { TableId };

    ghost coded = { table_id_coded };

    ghost view = { λ t. t.table.shared.table_id };

    ghost invariant = { λ t. (t.table.shared.table_id.words ≡ slots)
        × (t.table.shared.table_id.slots ≡ slots) };
}

impl ProcTable {
    // Takes the slot if its word is 0. Gives the word found.
    pub(crate) fn take(&self, seat: &mut Seat<Value, View>, slot: usize, mark: u64) -> u64
        requires table { seat.old.table_id ≡ self.now }
        requires inside { slot < slots }
        requires ready { Ready seat.old.me.0 }
        requires mark { mark ≡ word_of seat.old.me.0.number }
        ensures table { seat.new.table_id ≡ seat.old.table_id }
        ensures reported { MatchBool (result == 0)
            (Took slot seat.old.me seat.new.me) (Missed slot result seat.old.me seat.new.me) }
    {
        let place = place_of(slot);
        self.table
            .shared
            .compare_exchange::<Take>(seat, place, 0, mark)
    }

    // Puts the value back, with these entries after the history.
    pub(crate) fn give<E: Adds>(&self, seat: &mut Seat<Value, View>, slot: usize)
        requires table { seat.old.table_id ≡ self.now }
        requires inside { slot < slots }
        requires adds { Adding E.added slot seat.old.me }
        ensures table { seat.new.table_id ≡ seat.old.table_id }
        ensures gave { seat.new.me ≡ (given seat.old.me.0 slot E.added, []) }
    {
        let place = place_of(slot);
        self.table.shared.store::<Give<E>>(seat, place, 0);
    }

    // Lays the value down in the slot, which stays out.
    pub(crate) fn lay(&self, seat: &mut Seat<Value, View>, slot: usize)
        requires table { seat.old.table_id ≡ self.now }
        requires inside { slot < slots }
        requires ready { Ready seat.old.me.0 }
        requires handler { seat.old.me.0.number ≡ 0 }
        requires out { is_out seat.old.me.0 slot ≡ true }
        requires has { (y : Value) × (seat.old.me.1 ≡ hand slot y) }
        ensures table { seat.new.table_id ≡ seat.old.table_id }
        ensures laid { seat.new.me ≡ (with_laid seat.old.me.0 slot true, []) }
    {
        let place = place_of(slot);
        self.table.shared.load::<Lay>(seat, place);
    }

    // Takes up the value that was laid down.
    pub(crate) fn lift(&self, seat: &mut Seat<Value, View>, slot: usize)
        requires table { seat.old.table_id ≡ self.now }
        requires inside { slot < slots }
        requires ready { Ready seat.old.me.0 }
        requires handler { seat.old.me.0.number ≡ 0 }
        requires out { is_out seat.old.me.0 slot ≡ true }
        requires laid { (part_of seat.old.me.0.parts slot).laid ≡ true }
        requires empty { seat.old.me.1 ≡ [] }
        ensures table { seat.new.table_id ≡ seat.old.table_id }
        ensures lifted { (y : Value)
            × (seat.new.me ≡ (with_laid seat.old.me.0 slot false, hand slot y)) }
    {
        let place = place_of(slot);
        self.table.shared.load::<Lift>(seat, place);
    }

    // Asks the table about what the seat knows.
    pub(crate) fn learn(&self, seat: &mut Seat<Value, View>)
        requires table { seat.old.table_id ≡ self.now }
        requires live { seat.old.me.0.spent ≡ false }
        ensures table { seat.new.table_id ≡ seat.old.table_id }
        ensures learnt { Learnt seat.old.me seat.new.me }
    {
        self.table.shared.load::<Learn>(seat, 0);
    }

    // Makes a pass.
    pub(crate) fn split(&self, seat: &mut Seat<Value, View>) -> Seat<Value, View>
        requires table { seat.old.table_id ≡ self.now }
        requires ready { Ready seat.old.me.0 }
        requires handler { seat.old.me.0.number ≡ 0 }
        ensures table { seat.new.table_id ≡ seat.old.table_id }
        ensures other_table { result.table_id ≡ seat.old.table_id }
        ensures handler { seat.new.me ≡ (one_more seat.old.me.0, seat.old.me.1) }
        ensures pass { result.me ≡ (new_pass seat.old.me.0, []) }
    {
        self.table.shared.split_seat::<Cut>(seat)
    }

    // Joins a pass to the seat.
    pub(crate) fn join(&self, seat: &mut Seat<Value, View>, other: Seat<Value, View>)
        requires table { (seat.old.table_id ≡ self.now) × (other.table_id ≡ self.now) }
        requires ready { Ready seat.old.me.0 × Ready other.me.0 }
        requires pass { other.me.0.number ≢ 0 }
        requires none_out { (p : ℕ) → is_out other.me.0 p ≡ false }
        requires empty { other.me.1 ≡ [] }
        ensures table { seat.new.table_id ≡ seat.old.table_id }
        ensures joined { seat.new.me ≡ (joined seat.old.me.0 other.me.0, seat.old.me.1) }
    {
        self.table.shared.join_seat::<Glue>(seat, other);
    }
}
