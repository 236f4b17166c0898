//! The table of routes.

ghost use Rattle.std.specs.Prelude.{◌≡◌, ◌↔◌, IfErr, IfOk, OnOk, map};
ghost use Rattle.matchit.specs.declared.error.InsertError.TheVariants.{OutOfMemory};
ghost use Rattle.rest_requests.specs.Routes.Rows.{AreNew, IsNew, put, put_all, shown, text_row};
ghost use Rattle.rest_requests.specs.Routes.Table.{table};
ghost use Rattle.rest_requests.specs.Routes.Found.{route_for};

use crate::routes::routes::Route;
use matchit::{InsertError, Router};
use object_ids::Kind;
use std::alloc::{AllocError, Global};

static ROUTES: [(&str, Route); 21] = [
    ("/", Route::Node),
    ("/domains", Route::Domains),
    ("/acls", Route::Acls),
    ("/acls/{name}", Route::Acl),
    ("/groups", Route::Collection(Kind::Group)),
    ("/groups/{id}", Route::Object(Kind::Group)),
    ("/groups/{id}/attributes", Route::Attributes(Kind::Group)),
    (
        "/groups/{id}/attributes/{name}",
        Route::Attribute(Kind::Group),
    ),
    ("/groups/{id}/links", Route::Links),
    ("/groups/{id}/links/{title}", Route::Link),
    ("/datasets", Route::Collection(Kind::Dataset)),
    ("/datasets/{id}", Route::Object(Kind::Dataset)),
    (
        "/datasets/{id}/attributes",
        Route::Attributes(Kind::Dataset),
    ),
    (
        "/datasets/{id}/attributes/{name}",
        Route::Attribute(Kind::Dataset),
    ),
    ("/datasets/{id}/shape", Route::Shape),
    ("/datasets/{id}/type", Route::Elem),
    ("/datasets/{id}/value", Route::Value),
    ("/datatypes", Route::Collection(Kind::Datatype)),
    ("/datatypes/{id}", Route::Object(Kind::Datatype)),
    (
        "/datatypes/{id}/attributes",
        Route::Attributes(Kind::Datatype),
    ),
    (
        "/datatypes/{id}/attributes/{name}",
        Route::Attribute(Kind::Datatype),
    ),
];

fn inserted(router: &mut Router<Route>, text: &str, route: Route) -> Result<(), InsertError>
    ensures row { OnOk result (router.new ≡ put text.now route router.old) }
    ensures memory { IsNew text.now router.old → IfErr result (λ error. error ≡ OutOfMemory) }
{
    router.insert(text, route)
}

fn insert_row(router: &mut Router<Route>, text: &str, route: Route) -> Result<(), AllocError>
    requires { IsNew text.now router.now }
    ensures { OnOk result (router.new ≡ put text.now route router.old) }
{
    match inserted(router, text, route) {
        Ok(()) => Ok(()),
        Err(InsertError::OutOfMemory) => Err(AllocError),
        Err(_) => unreachable!(),
    }
}

fn insert_all(router: &mut Router<Route>, rows: &[(&str, Route)]) -> Result<(), AllocError>
    requires { AreNew (map text_row rows.now) router.now }
    ensures { OnOk result (router.new ≡ put_all (map text_row rows.now) router.old) }
{
    for row in rows {
        insert_row(router, row.0, row.1)?;
    }
    Ok(())
}

fn router(alloc: Global) -> Result<Router<Route>, AllocError>
    ensures { IfOk result (λ router. router ≡ map shown table) }
{
    let mut router = Router::new(alloc);
    insert_all(&mut router, ROUTES.as_slice())?;
    Ok(router)
}

/// The table of routes.
#[derive(Drop)]
pub struct RouteTable {
    router: Router<Route>,
    ghost is_table: { router ≡ map shown table },
}

impl RouteTable {
    ghost use Rattle.rest_requests.specs.Routes.Parts.{IsPathOf};
    ghost use Rattle.rest_requests.specs.declared.routes.routes.Route.{Route};

    /// The table. No row of it conflicts with another, so an error is want of memory and nothing else.
    pub fn new(alloc: Global) -> Result<RouteTable, AllocError> {
        let router = router(alloc)?;
        Ok(RouteTable { router })
    }

    /// What a path names: the route whose words and parameters its parts between slashes are. A parameter is any part
    /// that isn't empty. Takes no memory.
    pub fn find(&self, path: &str) -> Option<Route>
        ensures value { result ≡ route_for path.now }

        // The same by the parts of the route.
        ensures parts { (route : Route) → (result ≡ Some route) ↔ IsPathOf route path.now }
    {
        self.value_at(path)
    }

    fn value_at(&self, path: &str) -> Option<Route>
        ensures { result ≡ route_for path.now }
    {
        match self.router.at(path) {
            Ok(found) => Some(*found.value),
            Err(_) => None,
        }
    }
}
