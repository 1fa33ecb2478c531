//! The names of the members of values, arrays, maps and documents. (v1 reference, "Value", "ArrayValue", "MapValue"
//! and "Document".)

pub(crate) const NULL_VALUE: &str = "nullValue";

pub(crate) const BOOLEAN_VALUE: &str = "booleanValue";

pub(crate) const INTEGER_VALUE: &str = "integerValue";

pub(crate) const TIMESTAMP_VALUE: &str = "timestampValue";

pub(crate) const STRING_VALUE: &str = "stringValue";

pub(crate) const BYTES_VALUE: &str = "bytesValue";

pub(crate) const REFERENCE_VALUE: &str = "referenceValue";

pub(crate) const ARRAY_VALUE: &str = "arrayValue";

pub(crate) const MAP_VALUE: &str = "mapValue";

/// The members of which a value has just one.
pub(crate) const KINDS: [&str; 9] = [
    NULL_VALUE,
    BOOLEAN_VALUE,
    INTEGER_VALUE,
    TIMESTAMP_VALUE,
    STRING_VALUE,
    BYTES_VALUE,
    REFERENCE_VALUE,
    ARRAY_VALUE,
    MAP_VALUE,
];

/// The name of the one value of `google.protobuf.NullValue`.
pub(crate) const NULL: &str = "NULL_VALUE";

pub(crate) const VALUES: &str = "values";

pub(crate) const FIELDS: &str = "fields";

pub(crate) const NAME: &str = "name";

pub(crate) const CREATE_TIME: &str = "createTime";

pub(crate) const UPDATE_TIME: &str = "updateTime";

/// The member that an array may have.
pub(crate) const ARRAY_MEMBERS: [&str; 1] = [VALUES];

/// The member that a map may have.
pub(crate) const MAP_MEMBERS: [&str; 1] = [FIELDS];

/// The members that a document may have.
pub(crate) const DOCUMENT_MEMBERS: [&str; 4] = [NAME, FIELDS, CREATE_TIME, UPDATE_TIME];
