//! What the list of a mirror's documents is.
ghost use Rattle.std.specs.Prelude.{◌≡◌, ◌++◌, ◌∷◌, []};
ghost use Rattle.cat_feed.specs.Changes.{Documents};
ghost use Rattle.cat_mirror.specs.Answers.{documents_line};
ghost use Rattle.cat_query.specs.Answers.{list_data};
ghost use Rattle.cat_pages.specs.declared.query.Query.{Query as Asked};
ghost use Rattle.cat_tree.specs.Text.{text_of};

/// The list of the documents is what a question for documents answers that names no filter and no field.
#[tactic(auto, using(crate::proofs::Listed::lists_as_asked))]
pub fn documents_are_listed_as_asked()
    ensures { (query : Asked) (ds : Documents) → query.filters ≡ [] → query.fields ≡ [] → documents_line ds ≡ text_of (list_data query ds) ++ 10 ∷ [] }
{}
