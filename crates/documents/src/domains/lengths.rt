//! How many bytes the text of a document has at least.

ghost use Rattle.std.specs.Prelude.{◌≡◌, ◌-◌, ◌^◌, min};
ghost use Rattle.std.specs.FinMap.{entries, get};
ghost use Rattle.documents.specs.Domains.Lengths.{AreDatasetsInRange, least_at, least_body};
ghost use Rattle.documents.specs.Domains.Lengths.{least_nested, least_values};

use crate::domains::collections::is_of;
use crate::domains::home::Home;
use crate::domains::ranges::{first_id, next_of};
use crate::domains::store::ObjectStore;
use object_acts::{Body, Object};
use object_ids::{Kind, ObjectId};

/// How many bytes the values of a domain's datasets have at least in the text of its document, or 2^64 - 1 where that is less.
/// It looks at their shapes alone.
pub(crate) fn least_length<S: ObjectStore>(store: &S, home: &Home) -> u64
    ensures least { result
        ≡ min (least_values home.now (entries (S.objects store.now))) (2 ^ 64 - 1) }
    ensures range { AreDatasetsInRange (S.objects store.now) home.now }
{
    let mut last = first_id(Kind::Dataset, home);
    let mut total = least_at(store, home, &last);
    while let Some(id) = next_of(store, home, &last) {
        total = total.saturating_add(least_at(store, home, &id));
        last = id;
    }
    total
}

// How many the value of what stands at an id has, where it is a dataset of the domain.
fn least_at<S: ObjectStore>(store: &S, home: &Home, id: &ObjectId) -> u64
    ensures { result
        ≡ min (least_at home.now id.now (get (S.objects store.now) id.now)) (2 ^ 64 - 1) }
{
    if !is_of(Kind::Dataset, home, id) {
        return 0;
    }
    match store.object(id) {
        Some(object) => least_object(object),
        None => 0,
    }
}

fn least_object(object: &Object) -> u64
    ensures { result ≡ min (least_body object.now.body) (2 ^ 64 - 1) }
{
    match &object.body {
        Body::Group(_) => 0,
        Body::Dataset(array) => {
            let dims = array.shape().dims();
            least_nested(dims.as_slice())
        }
        Body::Datatype(_) => 0,
    }
}

fn least_nested(dims: &[u64]) -> u64
    ensures { result ≡ min (least_nested dims.now) (2 ^ 64 - 1) }
{
    let Some((n, rest)) = dims.split_first() else {
        return 1;
    };
    let member = least_nested(rest).saturating_add(1);
    n.saturating_mul(member).saturating_add(1)
}
