//! Which offer holds a reference.
ghost use Rattle.std.specs.Prelude.{◌≡◌, [], ◌∷◌, codes};
ghost use Rattle.cat_model.specs.Catalogue.{rehold};
ghost use Rattle.cat_model.specs.declared.types.Origin.TheVariants.{Provider, Entity};
ghost use Rattle.cat_examples.specs.Entities.{row};
ghost use Rattle.cat_examples.specs.Sessions.{said, printed};

/// Of two rows with one reference the one with the first arrival holds it, a row that holds stays, and where it goes the next
/// one holds.
pub fn holders_stay()
    ensures first { rehold ((1, row (Provider (codes "git")) (codes "a")) ∷ (2, row (Provider (codes "hr")) (codes "a")) ∷ []) [] ≡ (codes "a", 1) ∷ [] }
    ensures stays { rehold ((1, row (Provider (codes "git")) (codes "a")) ∷ (2, row (Provider (codes "hr")) (codes "a")) ∷ []) ((codes "a", 2) ∷ [])
        ≡ (codes "a", 2) ∷ [] }
    ensures next { rehold ((2, row (Provider (codes "hr")) (codes "a")) ∷ []) ((codes "a", 1) ∷ []) ≡ (codes "a", 2) ∷ [] }
{}

/// Two entities that offer each other hold as long as a provider offers one of them, and neither holds without.
pub fn holders_are_rooted()
    ensures rooted { rehold ((1, row (Provider (codes "git")) (codes "a")) ∷ (2, row (Entity (codes "a")) (codes "b")) ∷ (3, row (Entity (codes "b")) (codes "a")) ∷ []) []
        ≡ (codes "a", 1) ∷ (codes "b", 2) ∷ [] }
    ensures unrooted { rehold ((2, row (Entity (codes "a")) (codes "b")) ∷ (3, row (Entity (codes "b")) (codes "a")) ∷ []) ((codes "a", 1) ∷ (codes "b", 2) ∷ [])
        ≡ [] }
{}

/// Of two providers that offer one reference the first holds it, and the other one waits and is shown as a conflict; once the
/// first no longer offers it, the other one's entity is there.
/// The lines are those of examples/conflict.session.
pub fn the_first_holds()
    ensures said { said (
        codes "full git {\"serial\":1,\"entities\":[{\"entity\":{\"apiVersion\":\"backstage.io/v1alpha1\",\"kind\":\"Component\",\"metadata\":{\"name\":\"web\"},\"spec\":{\"type\":\"service\",\"lifecycle\":\"production\",\"owner\":\"a\"}}}]}"
        ∷ codes "full hr {\"serial\":1,\"entities\":[{\"entity\":{\"apiVersion\":\"backstage.io/v1alpha1\",\"kind\":\"Component\",\"metadata\":{\"name\":\"web\"},\"spec\":{\"type\":\"service\",\"lifecycle\":\"production\",\"owner\":\"b\"}}}]}"
        ∷ codes "conflicts"
        ∷ codes "full git {\"serial\":2,\"entities\":[]}"
        ∷ codes "conflicts"
        ∷ codes "settle"
        ∷ codes "get component:web"
        ∷ [])
        ≡ printed (
        codes "ok"
        ∷ codes "ok"
        ∷ codes "[{\"entityRef\":\"component:default/web\",\"holder\":{\"key\":\"provider:git\",\"origin\":\"provider:git\"},\"waiting\":{\"key\":\"provider:hr\",\"origin\":\"provider:hr\"}}]"
        ∷ codes "ok"
        ∷ codes "[]"
        ∷ codes "settled 1 1 1"
        ∷ codes "{\"apiVersion\":\"backstage.io/v1alpha1\",\"kind\":\"Component\",\"metadata\":{\"name\":\"web\",\"namespace\":\"default\",\"uid\":\"00000000-0000-8000-8000-000000000001\"},\"relations\":[{\"targetRef\":\"group:default/b\",\"type\":\"ownedBy\"}],\"spec\":{\"lifecycle\":\"production\",\"owner\":\"b\",\"type\":\"service\"}}"
        ∷ []) }
{}

/// Two locations that list each other stand only as long as a provider offers one of them.
/// The lines are those of examples/ring-of-locations.session.
pub fn rings_fall()
    ensures said { said (
        codes "full git {\"serial\":1,\"entities\":[{\"entity\":{\"apiVersion\":\"backstage.io/v1alpha1\",\"kind\":\"Location\",\"metadata\":{\"name\":\"a\"},\"spec\":{\"type\":\"file\",\"target\":\"/a.json\"}},\"locationKey\":\"file:/b.json\"}]}"
        ∷ codes "put file:/a.json [{\"apiVersion\":\"backstage.io/v1alpha1\",\"kind\":\"Location\",\"metadata\":{\"name\":\"b\"},\"spec\":{\"type\":\"file\",\"target\":\"/b.json\"}}]"
        ∷ codes "put file:/b.json [{\"apiVersion\":\"backstage.io/v1alpha1\",\"kind\":\"Location\",\"metadata\":{\"name\":\"a\"},\"spec\":{\"type\":\"file\",\"target\":\"/a.json\"}}]"
        ∷ codes "settle"
        ∷ codes "conflicts"
        ∷ codes "full git {\"serial\":2,\"entities\":[]}"
        ∷ codes "state"
        ∷ codes "list"
        ∷ [])
        ≡ printed (
        codes "ok"
        ∷ codes "ok"
        ∷ codes "ok"
        ∷ codes "settled 2 2 2"
        ∷ codes "[]"
        ∷ codes "ok"
        ∷ codes "state records 0 orphans 0 due 0 leased 0 marked 0"
        ∷ codes "[]"
        ∷ []) }
{}

/// Of two locations that list one text, the other still gives its entity when the first goes, with another origin; what just
/// the first listed is gone.
/// The lines are those of examples/shared-file.session.
pub fn what_no_one_lists_goes()
    ensures said { said (
        codes "full git {\"serial\":1,\"entities\":[{\"entity\":{\"apiVersion\":\"backstage.io/v1alpha1\",\"kind\":\"Location\",\"metadata\":{\"name\":\"p\"},\"spec\":{\"type\":\"file\",\"targets\":[\"/x.json\",\"/y.json\"]}}},{\"entity\":{\"apiVersion\":\"backstage.io/v1alpha1\",\"kind\":\"Location\",\"metadata\":{\"name\":\"q\"},\"spec\":{\"type\":\"file\",\"target\":\"/x.json\"}}}]}"
        ∷ codes "put file:/x.json {\"apiVersion\":\"backstage.io/v1alpha1\",\"kind\":\"Component\",\"metadata\":{\"name\":\"web\"},\"spec\":{\"type\":\"service\",\"lifecycle\":\"production\",\"owner\":\"a\"}}"
        ∷ codes "put file:/y.json {\"apiVersion\":\"backstage.io/v1alpha1\",\"kind\":\"Component\",\"metadata\":{\"name\":\"db\"},\"spec\":{\"type\":\"service\",\"lifecycle\":\"production\",\"owner\":\"a\"}}"
        ∷ codes "settle"
        ∷ codes "full git {\"serial\":2,\"entities\":[{\"entity\":{\"apiVersion\":\"backstage.io/v1alpha1\",\"kind\":\"Location\",\"metadata\":{\"name\":\"q\"},\"spec\":{\"type\":\"file\",\"target\":\"/x.json\"}}}]}"
        ∷ codes "state"
        ∷ codes "get component:default/web"
        ∷ codes "get component:default/db"
        ∷ [])
        ≡ printed (
        codes "ok"
        ∷ codes "ok"
        ∷ codes "ok"
        ∷ codes "settled 2 4 4"
        ∷ codes "ok"
        ∷ codes "state records 2 orphans 0 due 0 leased 0 marked 0"
        ∷ codes "{\"apiVersion\":\"backstage.io/v1alpha1\",\"kind\":\"Component\",\"metadata\":{\"annotations\":{\"backstage.io/managed-by-location\":\"file:/x.json\",\"backstage.io/managed-by-origin-location\":\"file:/x.json\"},\"name\":\"web\",\"namespace\":\"default\",\"uid\":\"00000000-0000-8000-8000-000000000004\"},\"relations\":[{\"targetRef\":\"group:default/a\",\"type\":\"ownedBy\"}],\"spec\":{\"lifecycle\":\"production\",\"owner\":\"a\",\"type\":\"service\"}}"
        ∷ codes "refused not_found"
        ∷ []) }
{}
