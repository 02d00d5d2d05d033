//! What the hooks of a brand answer.
ghost use Rattle.std.specs.Prelude.{◌≡◌, IsTrue};
ghost use Rattle.brand_hooks.specs.Tables.{answer_at, is_answer, proceeding, with_answer};

use crate::change::Change;
use std::marker::Model;

/// What a hook answers of a change: that it proceeds, or a refusal with its code.
#[derive(Clone, Copy, Debug, PartialEq, Eq)]
pub enum HookAnswer {
    Proceed,
    Refuse(u8),
}

/// What a brand's hook answers, for each of the 16 changes. Contracts see the list of the answers.
#[derive(Drop)]
pub struct HookTable {
    answers: [HookAnswer; 16],
}

impl Model for HookTable {
    ghost use Rattle.std.specs.Prelude.{List};
    ghost use Rattle.brand_hooks.specs.declared.table.HookAnswer.{HookAnswer};

    ghost Value = { List HookAnswer };

    ghost use Rattle.brand_hooks.specs.Tables.{AreAnswers};

    ghost view = { λ t. t.answers };

    ghost invariant = { λ t. AreAnswers t.answers };
}

impl HookTable {
    /// The table of a brand whose hook lets each change proceed.
    pub fn proceed() -> HookTable
        ensures { result ≡ proceeding }
    {
        HookTable {
            answers: [HookAnswer::Proceed; 16],
        }
    }

    /// The same table once more.
    pub fn copy(&self) -> HookTable
        ensures { result ≡ self.now }
    {
        HookTable {
            answers: self.answers,
        }
    }

    /// The table with another answer at one change. The code of a refusal is 1 to 99.
    pub fn with(self, change: &Change, answer: HookAnswer) -> HookTable
        requires { IsTrue (is_answer answer) }
        ensures { result ≡ with_answer change.now answer self }
    {
        let mut answers = self.answers;
        answers[change.place()] = answer;
        HookTable { answers }
    }

    /// What the hook answers at a change.
    pub fn at(&self, change: &Change) -> HookAnswer
        ensures answer { result ≡ answer_at change.now self.now }
        ensures code { IsTrue (is_answer result) }
    {
        self.answers[change.place()]
    }
}
