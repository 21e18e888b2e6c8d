// The meaning of the format: definitions of what a set, a table and a reading are, and the laws between them.
#![tactic(auto)]

pub mod answers;
pub mod examples;
pub mod found;

ghost use Rattle.std.specs.Prelude.{◌≡◌};
ghost use Rattle.format.specs.Laws.{DeltasReadBack, PointsReadBack, EntriesReadBack, RanksFoundAgain, MovementFollows, AcceptedCallsFixTheGlyphs};
ghost use Rattle.format.specs.Promise.{RequiredMovementsAgree, EveryCompileKeeps};
ghost use Rattle.format.specs.Worked.{given, wanted};

// Each function below states a law of the definitions, so that the check asks for its proof.

pub fn deltas_read_back()
    ensures { DeltasReadBack }
{}

pub fn points_read_back()
    ensures { PointsReadBack }
{}

pub fn entries_read_back()
    ensures { EntriesReadBack }
{}

pub fn ranks_found_again()
    ensures { RanksFoundAgain }
{}

pub fn movement_follows()
    ensures { MovementFollows }
{}

pub fn accepted_calls_fix_the_glyphs()
    ensures { AcceptedCallsFixTheGlyphs }
{}

pub fn worked_bytes()
    ensures { given ≡ wanted }
{}

pub fn required_movements_agree()
    ensures { RequiredMovementsAgree }
{}

pub fn every_compile_keeps()
    ensures { EveryCompileKeeps }
{}
