//! A picture in which the burns are counted, as a theorem over the definitions.
#![tactic(auto, unfolding(cmwq_table::specs::Table::table))]

ghost use Rattle.cmwq_picture_laws.specs.Examples.{drawn, its_cells};
ghost use Rattle.cmwq_picture_laws.specs.Signs.{shows_burning};
ghost use Rattle.std.specs.List.{slice_get};
ghost use Rattle.std.specs.Prelude.{◌≡◌, Some, count_by};

use cmwq_picture::Title;

/// The first row is the work's: it burns for two ticks, sleeps for one and burns for one more.
pub fn row_shows_a_body()
    ensures row { slice_get drawn.rows 0 ≡ Some (record { title = Title.Work (record { 0 = 0 }); cells = its_cells }) }
    ensures three { count_by shows_burning its_cells ≡ 3 }
{}
