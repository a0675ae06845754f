//! Locations and what they list: whole sessions from an empty catalogue on, each with what the program says to its lines.
ghost use Rattle.std.specs.Prelude.{◌≡◌, [], ◌∷◌, codes};
ghost use Rattle.cat_examples.specs.Sessions.{said, said_under, printed};
ghost use Rattle.cat_model.specs.declared.types.OrphanRule.TheVariants.{Delete};

/// An entity that its location no longer lists stays as an orphan, with an annotation that says so and the relations that it
/// states; when it is listed again it is no orphan and has its number as before.
/// The lines are those of examples/orphan.session.
pub fn what_is_unlisted_is_an_orphan()
    ensures said { said (
        codes "full git {\"serial\":1,\"entities\":[{\"entity\":{\"apiVersion\":\"backstage.io/v1alpha1\",\"kind\":\"Location\",\"metadata\":{\"name\":\"root\"},\"spec\":{\"type\":\"file\",\"target\":\"/r.json\"}}}]}"
        ∷ codes "put file:/r.json [{\"apiVersion\":\"backstage.io/v1alpha1\",\"kind\":\"Group\",\"metadata\":{\"name\":\"a\"},\"spec\":{\"type\":\"team\",\"children\":[]}},{\"apiVersion\":\"backstage.io/v1alpha1\",\"kind\":\"Component\",\"metadata\":{\"name\":\"web\"},\"spec\":{\"type\":\"service\",\"lifecycle\":\"production\",\"owner\":\"a\"}}]"
        ∷ codes "settle"
        ∷ codes "put file:/r.json [{\"apiVersion\":\"backstage.io/v1alpha1\",\"kind\":\"Group\",\"metadata\":{\"name\":\"a\"},\"spec\":{\"type\":\"team\",\"children\":[]}}]"
        ∷ codes "settle"
        ∷ codes "orphans"
        ∷ codes "get component:default/web"
        ∷ codes "get group:default/a"
        ∷ codes "put file:/r.json [{\"apiVersion\":\"backstage.io/v1alpha1\",\"kind\":\"Group\",\"metadata\":{\"name\":\"a\"},\"spec\":{\"type\":\"team\",\"children\":[]}},{\"apiVersion\":\"backstage.io/v1alpha1\",\"kind\":\"Component\",\"metadata\":{\"name\":\"web\"},\"spec\":{\"type\":\"service\",\"lifecycle\":\"production\",\"owner\":\"a\"}}]"
        ∷ codes "settle"
        ∷ codes "orphans"
        ∷ codes "get component:web"
        ∷ [])
        ≡ printed (
        codes "ok"
        ∷ codes "ok"
        ∷ codes "settled 2 3 3"
        ∷ codes "ok"
        ∷ codes "settled 1 1 2"
        ∷ codes "[\"component:default/web\"]"
        ∷ codes "{\"apiVersion\":\"backstage.io/v1alpha1\",\"kind\":\"Component\",\"metadata\":{\"annotations\":{\"backstage.io/managed-by-location\":\"file:/r.json\",\"backstage.io/managed-by-origin-location\":\"file:/r.json\",\"backstage.io/orphan\":\"true\"},\"name\":\"web\",\"namespace\":\"default\",\"uid\":\"00000000-0000-8000-8000-000000000002\"},\"relations\":[{\"targetRef\":\"group:default/a\",\"type\":\"ownedBy\"}],\"spec\":{\"lifecycle\":\"production\",\"owner\":\"a\",\"type\":\"service\"}}"
        ∷ codes "{\"apiVersion\":\"backstage.io/v1alpha1\",\"kind\":\"Group\",\"metadata\":{\"annotations\":{\"backstage.io/managed-by-location\":\"file:/r.json\",\"backstage.io/managed-by-origin-location\":\"file:/r.json\"},\"name\":\"a\",\"namespace\":\"default\",\"uid\":\"00000000-0000-8000-8000-000000000003\"},\"relations\":[],\"spec\":{\"children\":[],\"type\":\"team\"}}"
        ∷ codes "ok"
        ∷ codes "settled 2 2 2"
        ∷ codes "[]"
        ∷ codes "{\"apiVersion\":\"backstage.io/v1alpha1\",\"kind\":\"Component\",\"metadata\":{\"annotations\":{\"backstage.io/managed-by-location\":\"file:/r.json\",\"backstage.io/managed-by-origin-location\":\"file:/r.json\"},\"name\":\"web\",\"namespace\":\"default\",\"uid\":\"00000000-0000-8000-8000-000000000002\"},\"relations\":[{\"targetRef\":\"group:default/a\",\"type\":\"ownedBy\"}],\"spec\":{\"lifecycle\":\"production\",\"owner\":\"a\",\"type\":\"service\"}}"
        ∷ []) }
{}

/// Under the rule that deletes, an entity that its location no longer lists is gone; when it is listed again it has another number.
/// The lines are those of examples/orphan-deleted.session.
pub fn what_is_unlisted_is_deleted()
    ensures said { said_under Delete (
        codes "full git {\"serial\":1,\"entities\":[{\"entity\":{\"apiVersion\":\"backstage.io/v1alpha1\",\"kind\":\"Location\",\"metadata\":{\"name\":\"root\"},\"spec\":{\"type\":\"file\",\"target\":\"/r.json\"}}}]}"
        ∷ codes "put file:/r.json [{\"apiVersion\":\"backstage.io/v1alpha1\",\"kind\":\"Group\",\"metadata\":{\"name\":\"a\"},\"spec\":{\"type\":\"team\",\"children\":[]}},{\"apiVersion\":\"backstage.io/v1alpha1\",\"kind\":\"Component\",\"metadata\":{\"name\":\"web\"},\"spec\":{\"type\":\"service\",\"lifecycle\":\"production\",\"owner\":\"a\"}}]"
        ∷ codes "settle"
        ∷ codes "put file:/r.json [{\"apiVersion\":\"backstage.io/v1alpha1\",\"kind\":\"Group\",\"metadata\":{\"name\":\"a\"},\"spec\":{\"type\":\"team\",\"children\":[]}}]"
        ∷ codes "settle"
        ∷ codes "orphans"
        ∷ codes "get component:default/web"
        ∷ codes "put file:/r.json [{\"apiVersion\":\"backstage.io/v1alpha1\",\"kind\":\"Group\",\"metadata\":{\"name\":\"a\"},\"spec\":{\"type\":\"team\",\"children\":[]}},{\"apiVersion\":\"backstage.io/v1alpha1\",\"kind\":\"Component\",\"metadata\":{\"name\":\"web\"},\"spec\":{\"type\":\"service\",\"lifecycle\":\"production\",\"owner\":\"a\"}}]"
        ∷ codes "settle"
        ∷ codes "get component:web"
        ∷ [])
        ≡ printed (
        codes "ok"
        ∷ codes "ok"
        ∷ codes "settled 2 3 3"
        ∷ codes "ok"
        ∷ codes "settled 1 1 1"
        ∷ codes "[]"
        ∷ codes "refused not_found"
        ∷ codes "ok"
        ∷ codes "settled 2 2 2"
        ∷ codes "{\"apiVersion\":\"backstage.io/v1alpha1\",\"kind\":\"Component\",\"metadata\":{\"annotations\":{\"backstage.io/managed-by-location\":\"file:/r.json\",\"backstage.io/managed-by-origin-location\":\"file:/r.json\"},\"name\":\"web\",\"namespace\":\"default\",\"uid\":\"00000000-0000-8000-8000-000000000004\"},\"relations\":[{\"targetRef\":\"group:default/a\",\"type\":\"ownedBy\"}],\"spec\":{\"lifecycle\":\"production\",\"owner\":\"a\",\"type\":\"service\"}}"
        ∷ []) }
{}

/// Where a text lists no descriptors, its location has an issue, and what it listed before stays; once it lists them again the
/// issue goes.
/// The lines are those of examples/bad-file.session.
pub fn entities_outlive_a_bad_text()
    ensures said { said (
        codes "full git {\"serial\":1,\"entities\":[{\"entity\":{\"apiVersion\":\"backstage.io/v1alpha1\",\"kind\":\"Location\",\"metadata\":{\"name\":\"root\"},\"spec\":{\"type\":\"file\",\"target\":\"/r.json\"}}}]}"
        ∷ codes "put file:/r.json [{\"apiVersion\":\"backstage.io/v1alpha1\",\"kind\":\"Component\",\"metadata\":{\"name\":\"web\"},\"spec\":{\"type\":\"service\",\"lifecycle\":\"production\",\"owner\":\"a\"}}]"
        ∷ codes "settle"
        ∷ codes "put file:/r.json {"
        ∷ codes "settle"
        ∷ codes "get location:default/root"
        ∷ codes "get component:web"
        ∷ codes "put file:/r.json [{\"apiVersion\":\"backstage.io/v1alpha1\",\"kind\":\"Component\",\"metadata\":{\"name\":\"web\"},\"spec\":{\"type\":\"service\",\"lifecycle\":\"production\",\"owner\":\"a\"}}]"
        ∷ codes "settle"
        ∷ codes "get location:default/root"
        ∷ [])
        ≡ printed (
        codes "ok"
        ∷ codes "ok"
        ∷ codes "settled 2 2 2"
        ∷ codes "ok"
        ∷ codes "settled 1 1 1"
        ∷ codes "{\"apiVersion\":\"backstage.io/v1alpha1\",\"kind\":\"Location\",\"metadata\":{\"name\":\"root\",\"namespace\":\"default\",\"uid\":\"00000000-0000-8000-8000-000000000001\"},\"relations\":[],\"spec\":{\"target\":\"/r.json\",\"type\":\"file\"},\"status\":{\"items\":[{\"error\":{\"message\":\"file:/r.json Syntax\",\"name\":\"ShelfFault\"},\"level\":\"error\",\"message\":\"file:/r.json Syntax\",\"type\":\"backstage.io/catalog-processing\"}]}}"
        ∷ codes "{\"apiVersion\":\"backstage.io/v1alpha1\",\"kind\":\"Component\",\"metadata\":{\"annotations\":{\"backstage.io/managed-by-location\":\"file:/r.json\",\"backstage.io/managed-by-origin-location\":\"file:/r.json\"},\"name\":\"web\",\"namespace\":\"default\",\"uid\":\"00000000-0000-8000-8000-000000000002\"},\"relations\":[{\"targetRef\":\"group:default/a\",\"type\":\"ownedBy\"}],\"spec\":{\"lifecycle\":\"production\",\"owner\":\"a\",\"type\":\"service\"}}"
        ∷ codes "ok"
        ∷ codes "settled 1 1 1"
        ∷ codes "{\"apiVersion\":\"backstage.io/v1alpha1\",\"kind\":\"Location\",\"metadata\":{\"name\":\"root\",\"namespace\":\"default\",\"uid\":\"00000000-0000-8000-8000-000000000001\"},\"relations\":[],\"spec\":{\"target\":\"/r.json\",\"type\":\"file\"}}"
        ∷ []) }
{}

/// A text that isn't there is an error of its location, unless the location says that its targets are optional.
/// The lines are those of examples/missing-file.session.
pub fn targets_may_be_missing()
    ensures said { said (
        codes "full git {\"serial\":1,\"entities\":[{\"entity\":{\"apiVersion\":\"backstage.io/v1alpha1\",\"kind\":\"Location\",\"metadata\":{\"name\":\"root\"},\"spec\":{\"type\":\"file\",\"target\":\"/n.json\",\"presence\":\"optional\"}}}]}"
        ∷ codes "settle"
        ∷ codes "get location:root"
        ∷ codes "full hr {\"serial\":1,\"entities\":[{\"entity\":{\"apiVersion\":\"backstage.io/v1alpha1\",\"kind\":\"Location\",\"metadata\":{\"name\":\"other\"},\"spec\":{\"type\":\"file\",\"target\":\"/n.json\"}}}]}"
        ∷ codes "settle"
        ∷ codes "failed"
        ∷ [])
        ≡ printed (
        codes "ok"
        ∷ codes "settled 1 1 1"
        ∷ codes "{\"apiVersion\":\"backstage.io/v1alpha1\",\"kind\":\"Location\",\"metadata\":{\"name\":\"root\",\"namespace\":\"default\",\"uid\":\"00000000-0000-8000-8000-000000000001\"},\"relations\":[],\"spec\":{\"presence\":\"optional\",\"target\":\"/n.json\",\"type\":\"file\"}}"
        ∷ codes "ok"
        ∷ codes "settled 1 1 0"
        ∷ codes "[{\"entityRef\":\"location:default/other\",\"items\":[{\"error\":{\"message\":\"file:/n.json\",\"name\":\"MissingTarget\"},\"level\":\"error\",\"message\":\"file:/n.json\",\"type\":\"backstage.io/catalog-processing\"}]}]"
        ∷ []) }
{}

/// Of two descriptors in one text with the same reference the first counts, and the location has a warning.
/// The lines are those of examples/duplicate-offer.session.
pub fn the_first_descriptor_counts()
    ensures said { said (
        codes "full git {\"serial\":1,\"entities\":[{\"entity\":{\"apiVersion\":\"backstage.io/v1alpha1\",\"kind\":\"Location\",\"metadata\":{\"name\":\"root\"},\"spec\":{\"type\":\"file\",\"target\":\"/r.json\"}}}]}"
        ∷ codes "put file:/r.json [{\"apiVersion\":\"backstage.io/v1alpha1\",\"kind\":\"Component\",\"metadata\":{\"name\":\"web\"},\"spec\":{\"type\":\"service\",\"lifecycle\":\"production\",\"owner\":\"a\"}},{\"apiVersion\":\"backstage.io/v1alpha1\",\"kind\":\"Component\",\"metadata\":{\"name\":\"WEB\"},\"spec\":{\"type\":\"service\",\"lifecycle\":\"production\",\"owner\":\"b\"}}]"
        ∷ codes "settle"
        ∷ codes "get component:web"
        ∷ codes "get location:root"
        ∷ [])
        ≡ printed (
        codes "ok"
        ∷ codes "ok"
        ∷ codes "settled 2 2 2"
        ∷ codes "{\"apiVersion\":\"backstage.io/v1alpha1\",\"kind\":\"Component\",\"metadata\":{\"annotations\":{\"backstage.io/managed-by-location\":\"file:/r.json\",\"backstage.io/managed-by-origin-location\":\"file:/r.json\"},\"name\":\"web\",\"namespace\":\"default\",\"uid\":\"00000000-0000-8000-8000-000000000002\"},\"relations\":[{\"targetRef\":\"group:default/a\",\"type\":\"ownedBy\"}],\"spec\":{\"lifecycle\":\"production\",\"owner\":\"a\",\"type\":\"service\"}}"
        ∷ codes "{\"apiVersion\":\"backstage.io/v1alpha1\",\"kind\":\"Location\",\"metadata\":{\"name\":\"root\",\"namespace\":\"default\",\"uid\":\"00000000-0000-8000-8000-000000000001\"},\"relations\":[],\"spec\":{\"target\":\"/r.json\",\"type\":\"file\"},\"status\":{\"items\":[{\"error\":{\"message\":\"component:default/web file:/r.json\",\"name\":\"DuplicateOffer\"},\"level\":\"warning\",\"message\":\"component:default/web file:/r.json\",\"type\":\"backstage.io/catalog-processing\"}]}}"
        ∷ []) }
{}

/// Where the text of a location is dropped, the location is processed at once and has an error, and what it listed stays.
pub fn a_dropped_text_is_missing()
    ensures said { said (
        codes "full git {\"serial\":1,\"entities\":[{\"entity\":{\"apiVersion\":\"backstage.io/v1alpha1\",\"kind\":\"Location\",\"metadata\":{\"name\":\"root\"},\"spec\":{\"type\":\"file\",\"target\":\"/r.json\"}}}]}"
        ∷ codes "put file:/r.json {\"apiVersion\":\"backstage.io/v1alpha1\",\"kind\":\"Group\",\"metadata\":{\"name\":\"a\"},\"spec\":{\"type\":\"team\",\"children\":[]}}"
        ∷ codes "settle"
        ∷ codes "drop file:/r.json"
        ∷ codes "quiet"
        ∷ codes "settle"
        ∷ codes "failed"
        ∷ codes "state"
        ∷ [])
        ≡ printed (
        codes "ok"
        ∷ codes "ok"
        ∷ codes "settled 2 2 2"
        ∷ codes "ok"
        ∷ codes "no"
        ∷ codes "settled 1 1 1"
        ∷ codes "[{\"entityRef\":\"location:default/root\",\"items\":[{\"error\":{\"message\":\"file:/r.json\",\"name\":\"MissingTarget\"},\"level\":\"error\",\"message\":\"file:/r.json\",\"type\":\"backstage.io/catalog-processing\"}]}]"
        ∷ codes "state records 2 orphans 0 due 0 leased 0 marked 0"
        ∷ []) }
{}
