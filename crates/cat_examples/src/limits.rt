//! What is cut or refused: want of memory, the limit on the stored input, and a spent counter.
ghost use Rattle.std.specs.Prelude.{◌≡◌, [], ◌∷◌, None, Some, codes, length};
ghost use Rattle.cat_tree.specs.Text.{text_of};
ghost use Rattle.cat_io.specs.Word.{plain, memory, cut};
ghost use Rattle.cat_model.specs.Step.{refusal, start, step};
ghost use Rattle.cat_model.specs.Step.Event.{Mutate, Take};
ghost use Rattle.cat_model.specs.declared.types.Counter.TheVariants.{Token};
ghost use Rattle.cat_model.specs.declared.types.Fault.TheVariants.{Spent, TooLarge};
ghost use Rattle.cat_layers.specs.Layered.{layered};
ghost use Rattle.cat_model.specs.declared.types.OrphanRule.TheVariants.{Keep};
ghost use Rattle.cat_session_model.specs.Program.{program_settings};
ghost use Rattle.cat_examples.specs.Entities.{at_spent_tokens, before_settle, component, component_given};
ghost use Rattle.cat_examples.specs.Sessions.{first_line, printed, said_with};

/// A line that lacks memory does nothing. A settle that lacks memory after its first event, which leases the record, keeps
/// just that; the next settle takes the record again, whatever lease it has.
pub fn memory_may_lack()
    ensures mutation { said_with (memory ∷ plain ∷ []) (first_line ∷ codes "list" ∷ []) ≡ printed (codes "no memory" ∷ codes "[]" ∷ []) }
    ensures settle { said_with (plain ∷ cut 1 ∷ plain ∷ plain ∷ []) (first_line ∷ codes "settle" ∷ codes "state" ∷ codes "settle" ∷ [])
        ≡ printed (
        codes "ok"
        ∷ codes "cut 1 memory"
        ∷ codes "state records 1 orphans 0 due 1 leased 1 marked 0"
        ∷ codes "settled 1 1 1"
        ∷ []) }
{}

/// A mutation is refused where the compact texts of all items would pass the limit, by one byte already, and not where they
/// have just as many bytes.
pub fn input_has_a_limit()
    ensures above { refusal layered (record (program_settings Keep) { input_limit = 150 }) (Mutate (codes "git") component_given) start
        ≡ Some (TooLarge 151) }
    ensures at { refusal layered (record (program_settings Keep) { input_limit = 151 }) (Mutate (codes "git") component_given) start ≡ None }
    ensures bytes { length (text_of component) ≡ 151 }
{}

/// Where all tokens below 2^59 were drawn, a take is refused and changes nothing.
pub fn tokens_have_an_end()
    ensures before { refusal layered (program_settings Keep) (Take 0) before_settle ≡ None }
    ensures spent { refusal layered (program_settings Keep) (Take 0) at_spent_tokens ≡ Some (Spent Token) }
    ensures unchanged { step layered (program_settings Keep) (Take 0) at_spent_tokens ≡ at_spent_tokens }
{}
