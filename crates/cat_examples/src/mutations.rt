//! Mutations of providers: whole sessions from an empty catalogue on, each with what the program says to its lines.
ghost use Rattle.std.specs.Prelude.{◌≡◌, [], ◌∷◌, codes};
ghost use Rattle.cat_examples.specs.Sessions.{said, printed};

/// A component is given, settled and shown: one round, one lease and one stitch. References to it are folded to lower case, its
/// own text isn't; the default namespace and a unique id are filled in, and its owner is a group of the default namespace.
/// The lines are those of examples/first.session.
pub fn a_component_is_shown()
    ensures said { said (
        codes "full git {\"serial\":1,\"entities\":[{\"entity\":{\"apiVersion\":\"backstage.io/v1alpha1\",\"kind\":\"Component\",\"metadata\":{\"name\":\"Web\"},\"spec\":{\"type\":\"service\",\"lifecycle\":\"production\",\"owner\":\"Team-A\"}}}]}"
        ∷ codes "settle"
        ∷ codes "get component:default/WEB"
        ∷ [])
        ≡ printed (
        codes "ok"
        ∷ codes "settled 1 1 1"
        ∷ codes "{\"apiVersion\":\"backstage.io/v1alpha1\",\"kind\":\"Component\",\"metadata\":{\"name\":\"Web\",\"namespace\":\"default\",\"uid\":\"00000000-0000-8000-8000-000000000001\"},\"relations\":[{\"targetRef\":\"group:default/team-a\",\"type\":\"ownedBy\"}],\"spec\":{\"lifecycle\":\"production\",\"owner\":\"Team-A\",\"type\":\"service\"}}"
        ∷ []) }
{}

/// A serial counts once: the same one again changes nothing whatever comes with it, and an older one is refused.
/// The lines are those of examples/repeated-serial.session.
pub fn a_serial_counts_once()
    ensures said { said (
        codes "full git {\"serial\":5,\"entities\":[]}"
        ∷ codes "full git {\"serial\":5,\"entities\":[{\"entity\":{\"apiVersion\":\"backstage.io/v1alpha1\",\"kind\":\"Component\",\"metadata\":{\"name\":\"web\"},\"spec\":{\"type\":\"service\",\"lifecycle\":\"production\",\"owner\":\"a\"}}}]}"
        ∷ codes "list"
        ∷ codes "delta git {\"serial\":4,\"added\":[],\"removed\":[]}"
        ∷ [])
        ≡ printed (
        codes "ok"
        ∷ codes "ok again"
        ∷ codes "[]"
        ∷ codes "refused old 5"
        ∷ []) }
{}

/// In one mutation each reference stands once, among what is added and what is removed, and each item names an entity.
/// The lines are those of examples/duplicate-item.session.
pub fn a_reference_stands_once()
    ensures said { said (
        codes "full git {\"serial\":1,\"entities\":[{\"entity\":{\"apiVersion\":\"backstage.io/v1alpha1\",\"kind\":\"Component\",\"metadata\":{\"name\":\"a\"},\"spec\":{\"type\":\"service\",\"lifecycle\":\"production\",\"owner\":\"b\"}}},{\"entity\":{\"apiVersion\":\"backstage.io/v1alpha1\",\"kind\":\"Component\",\"metadata\":{\"name\":\"A\"},\"spec\":{\"type\":\"service\",\"lifecycle\":\"production\",\"owner\":\"c\"}}}]}"
        ∷ codes "delta git {\"serial\":1,\"added\":[{\"entity\":{\"apiVersion\":\"backstage.io/v1alpha1\",\"kind\":\"Component\",\"metadata\":{\"name\":\"a\"},\"spec\":{\"type\":\"service\",\"lifecycle\":\"production\",\"owner\":\"b\"}}}],\"removed\":[\"component:A\"]}"
        ∷ codes "delta git {\"serial\":1,\"added\":[],\"removed\":[\"a\"]}"
        ∷ [])
        ≡ printed (
        codes "refused duplicate 1"
        ∷ codes "refused duplicate 1"
        ∷ codes "refused no_ref 0 NoKind"
        ∷ []) }
{}

/// A body that lacks a field, or has one of another form, is refused with the name of the field.
/// The lines are those of examples/malformed-body.session.
pub fn bodies_have_their_fields()
    ensures said { said (
        codes "full git {\"serial\":0,\"entities\":[]}"
        ∷ codes "full git {\"serial\":1}"
        ∷ codes "full git {\"serial\":1,\"entities\":[1]}"
        ∷ codes "full git []"
        ∷ codes "delta git {\"serial\":1,\"added\":[]}"
        ∷ codes "delta git {\"serial\":1,\"added\":[],\"removed\":[1]}"
        ∷ [])
        ≡ printed (
        codes "refused shape serial"
        ∷ codes "refused shape entities"
        ∷ codes "refused shape entities"
        ∷ codes "refused shape serial"
        ∷ codes "refused shape removed"
        ∷ codes "refused shape removed"
        ∷ []) }
{}

/// A delta adds some items and removes others, and the rest stays as it was; what goes has no record and no document any more,
/// and what comes has a number of its own.
pub fn a_delta_changes_some()
    ensures said { said (
        codes "full git {\"serial\":1,\"entities\":[{\"entity\":{\"apiVersion\":\"backstage.io/v1alpha1\",\"kind\":\"Group\",\"metadata\":{\"name\":\"a\"},\"spec\":{\"type\":\"team\",\"children\":[]}}},{\"entity\":{\"apiVersion\":\"backstage.io/v1alpha1\",\"kind\":\"Group\",\"metadata\":{\"name\":\"b\"},\"spec\":{\"type\":\"team\",\"children\":[]}}}]}"
        ∷ codes "settle"
        ∷ codes "delta git {\"serial\":2,\"added\":[{\"entity\":{\"apiVersion\":\"backstage.io/v1alpha1\",\"kind\":\"Group\",\"metadata\":{\"name\":\"c\"},\"spec\":{\"type\":\"team\",\"children\":[]}}}],\"removed\":[\"group:a\"]}"
        ∷ codes "settle"
        ∷ codes "get group:a"
        ∷ codes "list"
        ∷ [])
        ≡ printed (
        codes "ok"
        ∷ codes "settled 1 2 2"
        ∷ codes "ok"
        ∷ codes "settled 1 1 1"
        ∷ codes "refused not_found"
        ∷ codes "[{\"apiVersion\":\"backstage.io/v1alpha1\",\"kind\":\"Group\",\"metadata\":{\"name\":\"b\",\"namespace\":\"default\",\"uid\":\"00000000-0000-8000-8000-000000000002\"},\"relations\":[],\"spec\":{\"children\":[],\"type\":\"team\"}},{\"apiVersion\":\"backstage.io/v1alpha1\",\"kind\":\"Group\",\"metadata\":{\"name\":\"c\",\"namespace\":\"default\",\"uid\":\"00000000-0000-8000-8000-000000000003\"},\"relations\":[],\"spec\":{\"children\":[],\"type\":\"team\"}}]"
        ∷ []) }
{}
