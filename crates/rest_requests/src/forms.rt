//! The forms of requests: what each method of a route asks.

ghost use Rattle.std.specs.Prelude.{◌≡◌, is_some};
ghost use Rattle.rest_requests.specs.Routes.Methods.{has_method, methods_of};
ghost use Rattle.rest_requests.specs.declared.routes.routes.Route.{Route};
ghost use Rattle.rest_requests.specs.declared.routes.routes.Method.{Method};
ghost use Rattle.rest_requests.specs.Forms.{drop_form, form_at, get_form, post_form, put_form};

use crate::routes::{Method, Route};
use object_ids::Kind;

/// The form of a request: its operation without the parts that the path, the query and the body give.
#[derive(Debug, Clone, Copy, PartialEq, Eq)]
pub(crate) enum Form {
    GetNode,
    PutNode,
    Flush,
    DropNode,
    ListNodes,
    GetAcls,
    GetAcl,
    PutAcl,
    MakeObject(Kind),
    GetObject(Kind),
    DropObject(Kind),
    ListLinks,
    GetLink,
    PutLink,
    DropLink,
    ListAttributes(Kind),
    GetAttribute(Kind),
    PutAttribute(Kind),
    DropAttribute(Kind),
    GetShape,
    PutShape,
    GetElem,
    GetValue,
    PutValue,
    GetPoints,
}

/// What a method of a route asks, where the route has it.
pub(crate) fn form_at(route: Route, method: Method) -> Option<Form>
    ensures { result ≡ form_at route method }
{
    match method {
        Method::Delete => drop_form(route),
        Method::Get => get_form(route),
        Method::Post => post_form(route),
        Method::Put => put_form(route),
    }
}

fn drop_form(route: Route) -> Option<Form>
    ensures { result ≡ drop_form route }
{
    match route {
        Route::Node => Some(Form::DropNode),
        Route::Object(kind) => Some(Form::DropObject(kind)),
        Route::Attribute(kind) => Some(Form::DropAttribute(kind)),
        Route::Link => Some(Form::DropLink),
        Route::Domains
        | Route::Acls
        | Route::Acl
        | Route::Collection(_)
        | Route::Attributes(_)
        | Route::Links
        | Route::Shape
        | Route::Elem
        | Route::Value => None,
    }
}

fn get_form(route: Route) -> Option<Form>
    ensures { result ≡ get_form route }
{
    match route {
        Route::Node => Some(Form::GetNode),
        Route::Domains => Some(Form::ListNodes),
        Route::Acls => Some(Form::GetAcls),
        Route::Acl => Some(Form::GetAcl),
        Route::Collection(_) => None,
        Route::Object(kind) => Some(Form::GetObject(kind)),
        Route::Attributes(kind) => Some(Form::ListAttributes(kind)),
        Route::Attribute(kind) => Some(Form::GetAttribute(kind)),
        Route::Links => Some(Form::ListLinks),
        Route::Link => Some(Form::GetLink),
        Route::Shape => Some(Form::GetShape),
        Route::Elem => Some(Form::GetElem),
        Route::Value => Some(Form::GetValue),
    }
}

fn post_form(route: Route) -> Option<Form>
    ensures { result ≡ post_form route }
{
    match route {
        Route::Collection(kind) => Some(Form::MakeObject(kind)),
        Route::Value => Some(Form::GetPoints),
        Route::Node
        | Route::Domains
        | Route::Acls
        | Route::Acl
        | Route::Object(_)
        | Route::Attributes(_)
        | Route::Attribute(_)
        | Route::Links
        | Route::Link
        | Route::Shape
        | Route::Elem => None,
    }
}

fn put_form(route: Route) -> Option<Form>
    ensures { result ≡ put_form route }
{
    match route {
        Route::Node => Some(Form::PutNode),
        Route::Acl => Some(Form::PutAcl),
        Route::Attribute(kind) => Some(Form::PutAttribute(kind)),
        Route::Link => Some(Form::PutLink),
        Route::Shape => Some(Form::PutShape),
        Route::Value => Some(Form::PutValue),
        Route::Domains
        | Route::Acls
        | Route::Collection(_)
        | Route::Object(_)
        | Route::Attributes(_)
        | Route::Links
        | Route::Elem => None,
    }
}

/// The methods of a route are those that ask something there: an answer that lists them lists what is served.
pub fn methods_are_served()
    ensures { (route : Route) (method : Method)
        → has_method (methods_of route) method ≡ is_some (form_at route method) }
{}
