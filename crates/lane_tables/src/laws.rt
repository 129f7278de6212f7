//! The law of tables; no function here does anything.

ghost use Rattle.lane_tables.specs.Tables.{AreAnswers};

/// A call is answered by what stands against it.
pub fn answers_are_decided()
    ensures { AreAnswers }
{}
