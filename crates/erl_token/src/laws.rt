//! Laws of the tokens themselves, whatever reads them. Each function does nothing: its contract is the law.
ghost use Rattle.erl_token.specs.Tiling.{ItemsTile};
ghost use Rattle.erl_token.specs.Rows.{RowsStandAlone};

/// The items of a text lie one after another, each with bytes of its own, and what they leave is blanks and comments.
pub fn items_tile_a_text()
    ensures { ItemsTile }
{}

/// The bytes of a row of tokens of a term that a dot follows, with a dot after them, have the same tokens by themselves.
pub fn rows_stand_alone()
    ensures { RowsStandAlone }
{}
