//! What the definition of a summary says of the machine's outcomes.
ghost use Rattle.std.specs.Prelude.{◌≡◌, ℕ, Bool, List, ◌++◌, codes};
ghost use Rattle.mrdt_model.specs.declared.time.Time.{Time};
ghost use Rattle.branch_history.specs.Steps.{Refusal, Sees, Forked, Landed, Merged, Forwarded, Same, Refused};
ghost use Rattle.branch_print.specs.Texts.{outcome_text, unseen_text, no_sequences_text, line_end};
ghost use Rattle.branch_print.specs.Summaries.{word_of, refusal_word};
ghost use Rattle.branch_print.specs.declared.summaries.Word.TheVariants as word;

use branch_doc::Forms;

/// Each outcome's reply counts under the word for it, where a session that looks has one of the names `s0` to `s3`.
pub fn counts_outcomes<T: Forms>()
    ensures landed { (takes : Bool) (session branch : List ℕ) (commit : ℕ) (time : Time)
        (said : T.Reply)
        → word_of (outcome_text T.forms takes session branch (Landed commit time said) ++ line_end)
        ≡ word.Landed }
    ensures merged { (takes : Bool) (session branch : List ℕ) (commit : ℕ)
        → word_of (outcome_text T.forms takes session branch (Merged commit) ++ line_end)
        ≡ word.Merged }
    ensures forward { (takes : Bool) (session branch : List ℕ) (commit : ℕ)
        → word_of (outcome_text T.forms takes session branch (Forwarded commit) ++ line_end)
        ≡ word.Forward }
    ensures same { (takes : Bool) (session branch : List ℕ)
        → word_of (outcome_text T.forms takes session branch Same ++ line_end) ≡ word.Same }
    ensures forked { (takes : Bool) (session branch : List ℕ) (number head : ℕ)
        → word_of (outcome_text T.forms takes session branch (Forked number head) ++ line_end)
        ≡ word.Forked }
    ensures looked_0 { (takes : Bool) (branch : List ℕ) (number head : ℕ)
        → word_of (outcome_text T.forms takes (codes "s0") branch (Sees number head) ++ line_end)
        ≡ word.Looked }
    ensures looked_1 { (takes : Bool) (branch : List ℕ) (number head : ℕ)
        → word_of (outcome_text T.forms takes (codes "s1") branch (Sees number head) ++ line_end)
        ≡ word.Looked }
    ensures looked_2 { (takes : Bool) (branch : List ℕ) (number head : ℕ)
        → word_of (outcome_text T.forms takes (codes "s2") branch (Sees number head) ++ line_end)
        ≡ word.Looked }
    ensures looked_3 { (takes : Bool) (branch : List ℕ) (number head : ℕ)
        → word_of (outcome_text T.forms takes (codes "s3") branch (Sees number head) ++ line_end)
        ≡ word.Looked }
    ensures refused { (takes : Bool) (session branch : List ℕ) (refusal : Refusal)
        → word_of (outcome_text T.forms takes session branch (Refused refusal) ++ line_end)
        ≡ refusal_word refusal }
    ensures unseen { (session : List ℕ) → word_of (unseen_text session ++ line_end) ≡ word.Errors }
    ensures no_sequences { word_of (no_sequences_text ++ line_end) ≡ word.Errors }
{}
