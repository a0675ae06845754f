//! What holds of the results of all entities. Each law is the contract of a function with an empty body.
ghost use Rattle.std.specs.Prelude.{◌≡◌, List, [], true, Some};
ghost use Rattle.std.specs.List.{list_any};
ghost use Rattle.cat_tree.specs.Data.{Data};
ghost use Rattle.cat_collections.specs.Table.{Text, Map, same_text, get};
ghost use Rattle.cat_types.specs.declared.input.Offered.{Offered};
ghost use Rattle.cat_types.specs.declared.issue.Issue.{Issue};
ghost use Rattle.cat_types.specs.declared.work.Output.{Output};
ghost use Rattle.cat_types.specs.declared.work.Outcome.TheVariants.{Good};
ghost use Rattle.cat_schema.specs.Rules.{breaches};
ghost use Rattle.cat_process.specs.Process.{is_location, work_on, result_of, shelf_refs};
ghost use Rattle.cat_process.specs.Whole.{ReadsEachTarget};

/// Whatever an entity offers over a shelf is among the references that the shelf's texts list.
pub fn offers_on_shelf()
    ensures { (shelf : Map Text) (tree : Data) (output : Output) (issues : List Issue)
        → result_of (work_on tree shelf) ≡ Good output issues
        → (r : Text) (x : Offered) → get output.offers r ≡ Some x
        → list_any (same_text r) (shelf_refs shelf) ≡ true }
{}

/// Where a Location breaks no rule of the descriptor format, each of its target texts is read: neither field and no item
/// of the list is passed over.
pub fn reads_each_target()
    ensures { (d : Data) → breaches d ≡ [] → is_location d ≡ true → ReadsEachTarget d }
{}
