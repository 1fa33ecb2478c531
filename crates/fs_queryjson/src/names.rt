//! The names of the members of queries and of their parts, and of operators and directions. (v1 reference,
//! "StructuredQuery" and "Cursor".)

pub(crate) const SELECT: &str = "select";

pub(crate) const FROM: &str = "from";

pub(crate) const WHERE: &str = "where";

pub(crate) const ORDER_BY: &str = "orderBy";

pub(crate) const START_AT: &str = "startAt";

pub(crate) const END_AT: &str = "endAt";

pub(crate) const OFFSET: &str = "offset";

pub(crate) const LIMIT: &str = "limit";

/// The members that a query may have.
pub(crate) const QUERY_MEMBERS: [&str; 8] = [
    SELECT, FROM, WHERE, ORDER_BY, START_AT, END_AT, OFFSET, LIMIT,
];

pub(crate) const FIELDS: &str = "fields";

/// The member that a selection may have.
pub(crate) const SELECT_MEMBERS: [&str; 1] = [FIELDS];

pub(crate) const FIELD_PATH: &str = "fieldPath";

/// The path of a document's name, which is no field's.
pub(crate) const NAME: &str = "__name__";

/// The member that a field has.
pub(crate) const FIELD_MEMBERS: [&str; 1] = [FIELD_PATH];

pub(crate) const COLLECTION_ID: &str = "collectionId";

pub(crate) const ALL_DESCENDANTS: &str = "allDescendants";

/// The members that an entry of `from` may have.
pub(crate) const FROM_MEMBERS: [&str; 2] = [COLLECTION_ID, ALL_DESCENDANTS];

pub(crate) const COMPOSITE_FILTER: &str = "compositeFilter";

pub(crate) const FIELD_FILTER: &str = "fieldFilter";

pub(crate) const UNARY_FILTER: &str = "unaryFilter";

/// The members of which a filter has just one.
pub(crate) const FILTER_KINDS: [&str; 3] = [COMPOSITE_FILTER, FIELD_FILTER, UNARY_FILTER];

pub(crate) const OP: &str = "op";

pub(crate) const FIELD: &str = "field";

pub(crate) const VALUE: &str = "value";

pub(crate) const FILTERS: &str = "filters";

/// The members that a composite filter may have.
pub(crate) const COMPOSITE_MEMBERS: [&str; 2] = [OP, FILTERS];

/// The member in which it has the filters that it joins.
pub(crate) const INNER_MEMBERS: [&str; 1] = [FILTERS];

/// The members that a field filter may have.
pub(crate) const COMPARE_MEMBERS: [&str; 3] = [FIELD, OP, VALUE];

/// The members that a unary filter may have.
pub(crate) const UNARY_MEMBERS: [&str; 2] = [OP, FIELD];

pub(crate) const DIRECTION: &str = "direction";

/// The members that an order may have.
pub(crate) const ORDER_MEMBERS: [&str; 2] = [FIELD, DIRECTION];

pub(crate) const VALUES: &str = "values";

pub(crate) const BEFORE: &str = "before";

/// The members that a cursor may have.
pub(crate) const CURSOR_MEMBERS: [&str; 2] = [VALUES, BEFORE];

pub(crate) const LESS_THAN: &str = "LESS_THAN";

pub(crate) const LESS_THAN_OR_EQUAL: &str = "LESS_THAN_OR_EQUAL";

pub(crate) const GREATER_THAN: &str = "GREATER_THAN";

pub(crate) const GREATER_THAN_OR_EQUAL: &str = "GREATER_THAN_OR_EQUAL";

pub(crate) const EQUAL: &str = "EQUAL";

pub(crate) const NOT_EQUAL: &str = "NOT_EQUAL";

pub(crate) const ARRAY_CONTAINS: &str = "ARRAY_CONTAINS";

pub(crate) const IN: &str = "IN";

pub(crate) const ARRAY_CONTAINS_ANY: &str = "ARRAY_CONTAINS_ANY";

pub(crate) const NOT_IN: &str = "NOT_IN";

pub(crate) const IS_NULL: &str = "IS_NULL";

pub(crate) const IS_NOT_NULL: &str = "IS_NOT_NULL";

pub(crate) const AND: &str = "AND";

pub(crate) const OR: &str = "OR";

pub(crate) const ASCENDING: &str = "ASCENDING";

pub(crate) const DESCENDING: &str = "DESCENDING";
