//! What paths name, and the methods of each.

ghost use Rattle.std.specs.Prelude.{◌≡◌};
ghost use Rattle.rest_requests.specs.Routes.Methods.{has_method, method_named, methods_of};

use object_ids::Kind;

/// What a path names.
#[derive(Debug, Clone, Copy, PartialEq, Eq)]
pub enum Route {
    /// `/`: the folder or the domain.
    Node,
    /// `/domains`: what stands in the folder.
    Domains,
    /// `/acls`: the access list.
    Acls,
    /// `/acls/{name}`: one entry of it.
    Acl,
    /// `/groups`, `/datasets` or `/datatypes`: the objects of a kind.
    Collection(Kind),
    /// `/groups/{id}`, as for each collection: an object.
    Object(Kind),
    /// `/groups/{id}/attributes`, as for each collection: the attributes of an object.
    Attributes(Kind),
    /// `/groups/{id}/attributes/{name}`, as for each collection: one attribute.
    Attribute(Kind),
    /// `/groups/{id}/links`: the links of a group.
    Links,
    /// `/groups/{id}/links/{title}`: one link.
    Link,
    /// `/datasets/{id}/shape`: the shape of a dataset.
    Shape,
    /// `/datasets/{id}/type`: the type of a dataset's elements.
    Elem,
    /// `/datasets/{id}/value`: the elements of a dataset.
    Value,
}

/// The methods that some route has.
#[derive(Debug, Clone, Copy, PartialEq, Eq)]
pub enum Method {
    Delete,
    Get,
    Post,
    Put,
}

impl Method {
    /// The method of this name, in upper case, where a route has it.
    pub fn named(name: &str) -> Option<Method>
        ensures { result ≡ method_named name.now }
    {
        match name {
            "DELETE" => Some(Method::Delete),
            "GET" => Some(Method::Get),
            "POST" => Some(Method::Post),
            "PUT" => Some(Method::Put),
            _ => None,
        }
    }
}

/// Which methods there are.
#[derive(Debug, Clone, Copy, PartialEq, Eq)]
pub struct Methods {
    pub delete: bool,
    pub get: bool,
    pub post: bool,
    pub put: bool,
}

impl Methods {
    /// No method.
    pub const NONE: Methods = Methods {
        delete: false,
        get: false,
        post: false,
        put: false,
    };

    /// Whether this is one of them.
    pub fn has(self, method: Method) -> bool
        ensures { result ≡ has_method self method }
    {
        match method {
            Method::Delete => self.delete,
            Method::Get => self.get,
            Method::Post => self.post,
            Method::Put => self.put,
        }
    }
}

impl Route {
    /// The methods of the route.
    pub fn methods(self) -> Methods
        ensures { result ≡ methods_of self }
    {
        match self {
            Route::Node | Route::Attribute(_) | Route::Link => Methods {
                delete: true,
                get: true,
                put: true,
                ..Methods::NONE
            },
            Route::Object(_) => Methods {
                delete: true,
                get: true,
                ..Methods::NONE
            },
            Route::Acl | Route::Shape => Methods {
                get: true,
                put: true,
                ..Methods::NONE
            },
            Route::Value => Methods {
                get: true,
                post: true,
                put: true,
                ..Methods::NONE
            },
            Route::Collection(_) => Methods {
                post: true,
                ..Methods::NONE
            },
            Route::Domains | Route::Acls | Route::Links | Route::Attributes(_) | Route::Elem => {
                Methods {
                    get: true,
                    ..Methods::NONE
                }
            }
        }
    }
}
