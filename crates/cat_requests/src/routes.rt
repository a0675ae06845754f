//! Routes: how the paths of the interface are written, and the one that a path fits.
ghost use Rattle.std.specs.Prelude.{◌≡◌};
ghost use Rattle.cat_requests.specs.Routes as spec;
ghost use Rattle.cat_requests.specs.Routes.{route_rows};

use cat_inputs::form::Form;
use matchit::Router;
use std::alloc::{AllocError, Global};

/// A path without pieces of its own.
#[derive(Clone, Copy, Debug, Drop, PartialEq, Eq)]
pub enum Fixed {
    Entities,
    ByQuery,
    ByRefs,
    EntityFacets,
    Refresh,
    Shelf,
    Settle,
    Conflicts,
    Failed,
    Orphans,
    State,
    Changes,
}

impl Fixed {
    /// How the path is written, as `/entities/by-query`.
    pub fn text(self) -> &'static str
        ensures { result.now ≡ spec.fixed_text self }
    {
        match self {
            Fixed::Entities => "/entities",
            Fixed::ByQuery => "/entities/by-query",
            Fixed::ByRefs => "/entities/by-refs",
            Fixed::EntityFacets => "/entity-facets",
            Fixed::Refresh => "/refresh",
            Fixed::Shelf => "/shelf",
            Fixed::Settle => "/settle",
            Fixed::Conflicts => "/conflicts",
            Fixed::Failed => "/failed",
            Fixed::Orphans => "/orphans",
            Fixed::State => "/state",
            Fixed::Changes => "/changes",
        }
    }
}

/// A route: how paths are written, and what they name.
#[derive(Clone, Copy, Debug, Drop, PartialEq, Eq)]
pub enum Route {
    /// A path without pieces of its own.
    Fixed(Fixed),
    /// An entity by its unique id.
    ByUid,
    /// An entity by kind, namespace and name.
    ByName,
    /// A provider's mutation of this form.
    Mutation(Form),
}

const ROUTES: [Route; 16] = [
    Route::Fixed(Fixed::Entities),
    Route::Fixed(Fixed::ByQuery),
    Route::Fixed(Fixed::ByRefs),
    Route::Fixed(Fixed::EntityFacets),
    Route::Fixed(Fixed::Refresh),
    Route::Fixed(Fixed::Shelf),
    Route::Fixed(Fixed::Settle),
    Route::Fixed(Fixed::Conflicts),
    Route::Fixed(Fixed::Failed),
    Route::Fixed(Fixed::Orphans),
    Route::Fixed(Fixed::State),
    Route::Fixed(Fixed::Changes),
    Route::ByUid,
    Route::ByName,
    Route::Mutation(Form::Full),
    Route::Mutation(Form::Delta),
];

impl Route {
    /// How its paths are written, with each piece's name in braces.
    pub fn text(self) -> &'static str
        ensures { result.now ≡ spec.route_text self }
    {
        match self {
            Route::Fixed(fixed) => fixed.text(),
            Route::ByUid => "/entities/by-uid/{uid}",
            Route::ByName => "/entities/by-name/{kind}/{namespace}/{name}",
            Route::Mutation(Form::Full) => "/providers/{name}/full",
            Route::Mutation(Form::Delta) => "/providers/{name}/delta",
        }
    }
}

/// The routes of the interface, laid out so that the one of a path is found at once.
#[derive(Drop)]
pub struct Routes {
    router: Router<Route>,
    ghost whole: { router ≡ route_rows },
}

impl Routes {
    /// The routes. `Err` is want of memory.
    pub fn new(alloc: Global) -> Result<Routes, AllocError> {
        let mut router = Router::new(alloc);
        for route in &ROUTES {
            match router.insert(route.text(), *route) {
                Ok(()) => {}
                Err(_) => return Err(AllocError),
            }
        }
        Ok(Routes { router })
    }

    /// The route that a path fits, if there is one.
    pub fn route_of(&self, path: &str) -> Option<Route>
        ensures { result ≡ spec.route_of path.now }
    {
        match self.router.at(path) {
            Ok(found) => Some(*found.value),
            Err(_) => None,
        }
    }
}
