//! What becomes of one component: its tree, relations, result and document by the lower layers, the tables of the catalogue
//! after its mutation and after a settle, and the replies.
ghost use Rattle.std.specs.Prelude.{◌≡◌, true, false, [], ◌∷◌, ◌++◌, Ok, codes};
ghost use Rattle.cat_tree.specs.Text.{text_of};
ghost use Rattle.cat_types.specs.declared.work.Outcome.TheVariants.{Good};
ghost use Rattle.cat_inputs.specs.Reading.{tree_reading};
ghost use Rattle.cat_model.specs.Catalogue.{work_of};
ghost use Rattle.cat_model.specs.Fresh.{facts_of, fresh_docs};
ghost use Rattle.cat_model.specs.Reply.{is_quiet};
ghost use Rattle.cat_model.specs.Step.{reopened};
ghost use Rattle.cat_layers.specs.Layered.{layered};
ghost use Rattle.cat_examples.specs.Entities.{after_settle, before_settle, component, component_document, component_parts, filled_component, owned, owning, settled_record, web};
ghost use Rattle.cat_examples.specs.Sessions.{first_line, printed, reached, said, said_by};

/// A descriptor reads as a tree; its owner is a group of the default namespace, and the relation is known from both ends; its
/// result fills in the namespace and offers nothing; and its document shows number and relations.
pub fn layers_of_a_component()
    ensures tree { tree_reading (codes "{\"apiVersion\":\"backstage.io/v1alpha1\",\"kind\":\"Component\",\"metadata\":{\"name\":\"Web\"},\"spec\":{\"type\":\"service\",\"lifecycle\":\"production\",\"owner\":\"Team-A\"}}") ≡ Ok component }
    ensures relations { layered.relations component web ≡ owned ∷ owning ∷ [] }
    ensures result { layered.result (work_of layered [] component) ≡ Good (record { entity = filled_component; offers = [] }) [] }
    ensures document { layered.doc component_parts ≡ component_document }
    ensures text { text_of component_document
        ≡ codes "{\"apiVersion\":\"backstage.io/v1alpha1\",\"kind\":\"Component\",\"metadata\":{\"name\":\"Web\",\"namespace\":\"default\",\"uid\":\"00000000-0000-8000-8000-000000000001\"},\"relations\":[{\"targetRef\":\"group:default/team-a\",\"type\":\"ownedBy\"}],\"spec\":{\"lifecycle\":\"production\",\"owner\":\"Team-A\",\"type\":\"service\"}}" }
{}

/// After the mutation the provider's offer has a row with the first arrival, which holds its reference under the provider's
/// key, and a record with the first number that was never processed and is due at once.
pub fn tables_after_a_mutation()
    ensures state { (reached (first_line ∷ [])).state ≡ before_settle }
    ensures quiet { is_quiet before_settle 0 ≡ false }
{}

/// After a settle the record has its output and is due after two minutes, its document is stored, and no mark is left. The
/// documents are those computed afresh from the inputs.
pub fn tables_after_a_settle()
    ensures state { (reached (first_line ∷ codes "settle" ∷ [])).state ≡ after_settle }
    ensures fresh { fresh_docs layered (facts_of layered after_settle) ≡ after_settle.documents }
    ensures quiet { is_quiet after_settle 119999 ≡ true }
    ensures due { is_quiet after_settle 120000 ≡ false }
{}

/// A catalogue that is read back from its store has the same documents; its records are due at once and its tokens and tickets
/// begin anew, while numbers and arrivals go on.
pub fn stores_are_read_back()
    ensures state { reopened layered after_settle
        ≡ record after_settle { records = (web, record settled_record { due = 0 }) ∷ []; token = 1; ticket = 1 } }
{}

/// Bytes in, bytes out: the lines are cut from the input, and each has its reply.
pub fn session_of_bytes()
    ensures said { said_by (first_line ++ codes "\nsettle\r\nquiet") ≡ codes "ok\nsettled 1 1 1\nyes\n" }
{}

/// A component with a tag that isn't one and without owner breaks two rules of the descriptor format. It has no document, and
/// is listed as failed, with an issue for each breach in the order of the rules.
pub fn breaches_are_listed()
    ensures said { said (
        codes "full git {\"serial\":1,\"entities\":[{\"entity\":{\"apiVersion\":\"backstage.io/v1alpha1\",\"kind\":\"Component\",\"metadata\":{\"name\":\"web\",\"tags\":[\"java\",\"C\"]},\"spec\":{\"type\":\"service\",\"lifecycle\":\"production\"}}}]}"
        ∷ codes "settle"
        ∷ codes "get component:web"
        ∷ codes "failed"
        ∷ [])
        ≡ printed (
        codes "ok"
        ∷ codes "settled 1 1 0"
        ∷ codes "refused not_found"
        ∷ codes "[{\"entityRef\":\"component:default/web\",\"items\":[{\"error\":{\"message\":\"S14 metadata.tags.1\",\"name\":\"SchemaFault\"},\"level\":\"error\",\"message\":\"S14 metadata.tags.1\",\"type\":\"backstage.io/catalog-processing\"},{\"error\":{\"message\":\"S19 spec.owner\",\"name\":\"SchemaFault\"},\"level\":\"error\",\"message\":\"S19 spec.owner\",\"type\":\"backstage.io/catalog-processing\"}]}]"
        ∷ []) }
{}
