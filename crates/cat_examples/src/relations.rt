//! Relations between entities: whole sessions from an empty catalogue on, each with what the program says to its lines.
ghost use Rattle.std.specs.Prelude.{◌≡◌, [], ◌∷◌, codes};
ghost use Rattle.cat_examples.specs.Sessions.{said, printed};

/// When a component changes its owner, just that component is processed, and three documents are stitched: its own and those of
/// both owners.
/// The lines are those of examples/changed-owner.session.
pub fn both_owners_change()
    ensures said { said (
        codes "full git {\"serial\":1,\"entities\":[{\"entity\":{\"apiVersion\":\"backstage.io/v1alpha1\",\"kind\":\"Group\",\"metadata\":{\"name\":\"a\"},\"spec\":{\"type\":\"team\",\"children\":[]}}},{\"entity\":{\"apiVersion\":\"backstage.io/v1alpha1\",\"kind\":\"Group\",\"metadata\":{\"name\":\"b\"},\"spec\":{\"type\":\"team\",\"children\":[]}}},{\"entity\":{\"apiVersion\":\"backstage.io/v1alpha1\",\"kind\":\"Component\",\"metadata\":{\"name\":\"web\"},\"spec\":{\"type\":\"service\",\"lifecycle\":\"production\",\"owner\":\"a\"}}}]}"
        ∷ codes "settle"
        ∷ codes "full git {\"serial\":2,\"entities\":[{\"entity\":{\"apiVersion\":\"backstage.io/v1alpha1\",\"kind\":\"Group\",\"metadata\":{\"name\":\"a\"},\"spec\":{\"type\":\"team\",\"children\":[]}}},{\"entity\":{\"apiVersion\":\"backstage.io/v1alpha1\",\"kind\":\"Group\",\"metadata\":{\"name\":\"b\"},\"spec\":{\"type\":\"team\",\"children\":[]}}},{\"entity\":{\"apiVersion\":\"backstage.io/v1alpha1\",\"kind\":\"Component\",\"metadata\":{\"name\":\"web\"},\"spec\":{\"type\":\"service\",\"lifecycle\":\"production\",\"owner\":\"b\"}}}]}"
        ∷ codes "settle"
        ∷ codes "get group:default/a"
        ∷ codes "get group:default/b"
        ∷ [])
        ≡ printed (
        codes "ok"
        ∷ codes "settled 1 3 3"
        ∷ codes "ok"
        ∷ codes "settled 1 1 3"
        ∷ codes "{\"apiVersion\":\"backstage.io/v1alpha1\",\"kind\":\"Group\",\"metadata\":{\"name\":\"a\",\"namespace\":\"default\",\"uid\":\"00000000-0000-8000-8000-000000000002\"},\"relations\":[],\"spec\":{\"children\":[],\"type\":\"team\"}}"
        ∷ codes "{\"apiVersion\":\"backstage.io/v1alpha1\",\"kind\":\"Group\",\"metadata\":{\"name\":\"b\",\"namespace\":\"default\",\"uid\":\"00000000-0000-8000-8000-000000000003\"},\"relations\":[{\"targetRef\":\"component:default/web\",\"type\":\"ownerOf\"}],\"spec\":{\"children\":[],\"type\":\"team\"}}"
        ∷ []) }
{}

/// A reference field without a default kind needs a kind; without one the entity has no document, and is listed as failed until
/// the field is right.
/// The lines are those of examples/bad-reference.session.
pub fn references_have_kinds()
    ensures said { said (
        codes "full git {\"serial\":1,\"entities\":[{\"entity\":{\"apiVersion\":\"backstage.io/v1alpha1\",\"kind\":\"Component\",\"metadata\":{\"name\":\"web\"},\"spec\":{\"type\":\"service\",\"lifecycle\":\"production\",\"owner\":\"a\",\"dependsOn\":[\"db\"]}}}]}"
        ∷ codes "settle"
        ∷ codes "get component:default/web"
        ∷ codes "failed"
        ∷ codes "full git {\"serial\":2,\"entities\":[{\"entity\":{\"apiVersion\":\"backstage.io/v1alpha1\",\"kind\":\"Component\",\"metadata\":{\"name\":\"web\"},\"spec\":{\"type\":\"service\",\"lifecycle\":\"production\",\"owner\":\"a\",\"dependsOn\":[\"resource:db\"]}}}]}"
        ∷ codes "settle"
        ∷ codes "failed"
        ∷ [])
        ≡ printed (
        codes "ok"
        ∷ codes "settled 1 1 0"
        ∷ codes "refused not_found"
        ∷ codes "[{\"entityRef\":\"component:default/web\",\"items\":[{\"error\":{\"message\":\"NoKind spec.dependsOn.0\",\"name\":\"ReferenceFault\"},\"level\":\"error\",\"message\":\"NoKind spec.dependsOn.0\",\"type\":\"backstage.io/catalog-processing\"}]}]"
        ∷ codes "ok"
        ∷ codes "settled 1 1 1"
        ∷ codes "[]"
        ∷ []) }
{}

/// Thirteen entities of all eight kinds, from a location and the two texts that it points to, are settled in two rounds; an
/// API is shown with its owner, its system, its provider and its consumer.
/// The lines are those of examples/organisation.session.
pub fn an_organisation()
    ensures said { said (
        codes "full git {\"serial\":1,\"entities\":[{\"entity\":{\"apiVersion\":\"backstage.io/v1alpha1\",\"kind\":\"Location\",\"metadata\":{\"name\":\"root\",\"annotations\":{\"backstage.io/managed-by-location\":\"file:/org/root.json\",\"backstage.io/managed-by-origin-location\":\"file:/org/root.json\"}},\"spec\":{\"targets\":[\"./teams.json\",\"./systems.json\"]}}}]}"
        ∷ codes "put file:/org/teams.json [{\"apiVersion\":\"backstage.io/v1alpha1\",\"kind\":\"Group\",\"metadata\":{\"name\":\"platform\"},\"spec\":{\"type\":\"department\",\"children\":[\"web-team\",\"data-team\"]}},{\"apiVersion\":\"backstage.io/v1alpha1\",\"kind\":\"Group\",\"metadata\":{\"name\":\"web-team\"},\"spec\":{\"type\":\"team\",\"parent\":\"platform\",\"children\":[],\"members\":[\"ann\"]}},{\"apiVersion\":\"backstage.io/v1alpha1\",\"kind\":\"Group\",\"metadata\":{\"name\":\"data-team\"},\"spec\":{\"type\":\"team\",\"children\":[],\"profile\":{\"displayName\":\"Data\",\"email\":\"data@example.com\"}}},{\"apiVersion\":\"backstage.io/v1alpha1\",\"kind\":\"User\",\"metadata\":{\"name\":\"ann\"},\"spec\":{\"memberOf\":[\"web-team\"],\"profile\":{\"displayName\":\"Ann\"}}},{\"apiVersion\":\"backstage.io/v1alpha1\",\"kind\":\"User\",\"metadata\":{\"name\":\"bob\"},\"spec\":{\"memberOf\":[\"data-team\"]}},{\"apiVersion\":\"backstage.io/v1alpha1\",\"kind\":\"User\",\"metadata\":{\"name\":\"cyd\"},\"spec\":{}}]"
        ∷ codes "put file:/org/systems.json [{\"apiVersion\":\"backstage.io/v1alpha1\",\"kind\":\"Domain\",\"metadata\":{\"name\":\"commerce\"},\"spec\":{\"owner\":\"platform\"}},{\"apiVersion\":\"backstage.io/v1alpha1\",\"kind\":\"System\",\"metadata\":{\"name\":\"shop\"},\"spec\":{\"owner\":\"web-team\",\"domain\":\"commerce\"}},{\"apiVersion\":\"backstage.io/v1alpha1\",\"kind\":\"Component\",\"metadata\":{\"name\":\"storefront\",\"title\":\"Storefront\",\"description\":\"The shop's pages\",\"labels\":{\"example.com/tier\":\"gold\"},\"annotations\":{\"example.com/project-slug\":\"org/storefront\"},\"tags\":[\"java\",\"c++\"],\"links\":[{\"url\":\"https://example.com/shop\",\"title\":\"Shop\"}]},\"spec\":{\"type\":\"website\",\"lifecycle\":\"production\",\"owner\":\"web-team\",\"system\":\"shop\",\"consumesApis\":[\"orders\"],\"dependsOn\":[\"resource:orders-db\"]}},{\"apiVersion\":\"backstage.io/v1alpha1\",\"kind\":\"Component\",\"metadata\":{\"name\":\"orders-service\"},\"spec\":{\"type\":\"service\",\"lifecycle\":\"production\",\"owner\":\"group:data-team\",\"system\":\"shop\",\"providesApis\":[\"orders\"],\"dependsOn\":[\"resource:default/orders-db\"]}},{\"apiVersion\":\"backstage.io/v1alpha1\",\"kind\":\"API\",\"metadata\":{\"name\":\"orders\"},\"spec\":{\"type\":\"openapi\",\"lifecycle\":\"production\",\"owner\":\"data-team\",\"system\":\"shop\",\"definition\":\"openapi: 3.0.0\"}},{\"apiVersion\":\"backstage.io/v1alpha1\",\"kind\":\"Resource\",\"metadata\":{\"name\":\"orders-db\"},\"spec\":{\"type\":\"database\",\"owner\":\"data-team\",\"system\":\"shop\"}}]"
        ∷ codes "settle"
        ∷ codes "state"
        ∷ codes "get api:default/orders"
        ∷ codes "failed"
        ∷ codes "orphans"
        ∷ codes "quiet"
        ∷ [])
        ≡ printed (
        codes "ok"
        ∷ codes "ok"
        ∷ codes "ok"
        ∷ codes "settled 2 13 13"
        ∷ codes "state records 13 orphans 0 due 0 leased 0 marked 0"
        ∷ codes "{\"apiVersion\":\"backstage.io/v1alpha1\",\"kind\":\"API\",\"metadata\":{\"annotations\":{\"backstage.io/managed-by-location\":\"file:/org/systems.json\",\"backstage.io/managed-by-origin-location\":\"file:/org/root.json\"},\"name\":\"orders\",\"namespace\":\"default\",\"uid\":\"00000000-0000-8000-8000-000000000002\"},\"relations\":[{\"targetRef\":\"component:default/storefront\",\"type\":\"apiConsumedBy\"},{\"targetRef\":\"component:default/orders-service\",\"type\":\"apiProvidedBy\"},{\"targetRef\":\"group:default/data-team\",\"type\":\"ownedBy\"},{\"targetRef\":\"system:default/shop\",\"type\":\"partOf\"}],\"spec\":{\"definition\":\"openapi: 3.0.0\",\"lifecycle\":\"production\",\"owner\":\"data-team\",\"system\":\"shop\",\"type\":\"openapi\"}}"
        ∷ codes "[]"
        ∷ codes "[]"
        ∷ codes "yes"
        ∷ []) }
{}
