//! The names of the members of writes, of their parts and of their results. (v1 reference, "Write", "DocumentMask",
//! "FieldTransform", "Precondition" and "WriteResult".)

pub(crate) const UPDATE: &str = "update";

pub(crate) const DELETE: &str = "delete";

pub(crate) const TRANSFORM: &str = "transform";

pub(crate) const VERIFY: &str = "verify";

pub(crate) const UPDATE_MASK: &str = "updateMask";

pub(crate) const UPDATE_TRANSFORMS: &str = "updateTransforms";

pub(crate) const CURRENT_DOCUMENT: &str = "currentDocument";

/// The members that a write may have.
pub(crate) const WRITE_MEMBERS: [&str; 7] = [
    UPDATE,
    DELETE,
    TRANSFORM,
    VERIFY,
    UPDATE_MASK,
    UPDATE_TRANSFORMS,
    CURRENT_DOCUMENT,
];

/// Those that would stand in place of an update or a delete, and aren't built.
pub(crate) const UNBUILT_MEMBERS: [&str; 2] = [TRANSFORM, VERIFY];

pub(crate) const FIELD_PATHS: &str = "fieldPaths";

/// The member that a mask may have.
pub(crate) const MASK_MEMBERS: [&str; 1] = [FIELD_PATHS];

pub(crate) const FIELD_PATH: &str = "fieldPath";

pub(crate) const SET_TO_SERVER_VALUE: &str = "setToServerValue";

pub(crate) const INCREMENT: &str = "increment";

pub(crate) const MAXIMUM: &str = "maximum";

pub(crate) const MINIMUM: &str = "minimum";

pub(crate) const APPEND_MISSING_ELEMENTS: &str = "appendMissingElements";

pub(crate) const REMOVE_ALL_FROM_ARRAY: &str = "removeAllFromArray";

/// The operations of which a transform has just one.
pub(crate) const OPERATIONS: [&str; 6] = [
    SET_TO_SERVER_VALUE,
    INCREMENT,
    MAXIMUM,
    MINIMUM,
    APPEND_MISSING_ELEMENTS,
    REMOVE_ALL_FROM_ARRAY,
];

/// The member that a transform has beside its operation.
pub(crate) const PATH_MEMBERS: [&str; 1] = [FIELD_PATH];

/// The one value that the server sets.
pub(crate) const REQUEST_TIME: &str = "REQUEST_TIME";

pub(crate) const EXISTS: &str = "exists";

pub(crate) const UPDATE_TIME: &str = "updateTime";

/// The members of which a precondition has at most one.
pub(crate) const CONDITION_MEMBERS: [&str; 2] = [EXISTS, UPDATE_TIME];

pub(crate) const TRANSFORM_RESULTS: &str = "transformResults";

/// The members that a result may have.
pub(crate) const RESULT_MEMBERS: [&str; 2] = [UPDATE_TIME, TRANSFORM_RESULTS];
