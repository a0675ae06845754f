//! What holds of each offer and of each good result. The laws are the contracts of functions with empty bodies.
ghost use Rattle.std.specs.Prelude.{◌≡◌, ◌↔◌, ℕ, List, true, Some};
ghost use Rattle.cat_layers.specs.Forms.{IsOffer, IsProcessed, is_entity, is_item};
ghost use Rattle.cat_process.specs.Process.{result_of, work_on};
ghost use Rattle.cat_tree.specs.Data.{Data};
ghost use Rattle.cat_collections.specs.Table.{Map, Text, get};
ghost use Rattle.cat_types.specs.declared.input.Offered.{Offered};
ghost use Rattle.cat_types.specs.declared.issue.Issue.{Issue};
ghost use Rattle.cat_types.specs.declared.work.Outcome.TheVariants.{Good};
ghost use Rattle.cat_types.specs.declared.work.Output.{Output};

/// The tests of offers and of processed entities tell just what their forms say.
pub fn tests_tell_forms()
    ensures item { (x : Offered) (r : Text) → (is_item x r ≡ true) ↔ IsOffer x r }
    ensures entity { (t : Data) (r : Text) → (is_entity t r ≡ true) ↔ IsProcessed t r }
{}

/// A good result of an offer that may stand under a reference has a processed entity of that reference; and whatever a
/// good result offers may stand under its reference, whatever the processed tree is.
pub fn results_have_forms()
    ensures entity { (shelf : Map Text) (x : Offered) (r : Text) (output : Output) (issues : List Issue) → IsOffer x r → result_of (work_on x.tree shelf) ≡ Good output issues → IsProcessed output.entity r }
    ensures offers { (shelf : Map Text) (tree : Data) (output : Output) (issues : List Issue) → result_of (work_on tree shelf) ≡ Good output issues → (q : Text) (y : Offered) → get output.offers q ≡ Some y → IsOffer y q }
{}
