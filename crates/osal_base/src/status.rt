//! The status codes of OSAL's calls, as `osapi-error.h` names and numbers them.
ghost use Rattle.std.specs.Prelude.{◌≡◌, ◌≢◌, IfSome, IfNone};
ghost use Rattle.osal_base.specs.declared.status.Status.{Status};
ghost use Rattle.osal_base.specs.Status.{number_of, status_name, status_of};

/// What a call answers: success, or the cause of its refusal.
#[derive(Clone, Copy, Debug, PartialEq, Eq)]
pub enum Status {
    Success,
    Error,
    InvalidPointer,
    ErrorTimeout,
    SemFailure,
    SemTimeout,
    QueueEmpty,
    QueueFull,
    QueueTimeout,
    QueueInvalidSize,
    ErrNameTooLong,
    ErrNoFreeIds,
    ErrNameTaken,
    ErrInvalidId,
    ErrNameNotFound,
    ErrInvalidPriority,
    InvalidSemValue,
    TimerErrInvalidArgs,
    ErrObjectInUse,
    ErrIncorrectObjState,
    ErrIncorrectObjType,
    ErrStreamDisconnected,
    ErrInvalidSize,
    ErrInvalidArgument,
    FsErrPathTooLong,
    FsErrNameTooLong,
    FsErrDeviceNotFree,
    FsErrPathInvalid,
}

impl Status {
    /// The number that OSAL's headers give the status.
    pub fn number(self) -> i32
        ensures { result ≡ number_of self }
    {
        match self {
            Status::Success => 0,
            Status::Error => -1,
            Status::InvalidPointer => -2,
            Status::ErrorTimeout => -4,
            Status::SemFailure => -6,
            Status::SemTimeout => -7,
            Status::QueueEmpty => -8,
            Status::QueueFull => -9,
            Status::QueueTimeout => -10,
            Status::QueueInvalidSize => -11,
            Status::ErrNameTooLong => -13,
            Status::ErrNoFreeIds => -14,
            Status::ErrNameTaken => -15,
            Status::ErrInvalidId => -16,
            Status::ErrNameNotFound => -17,
            Status::ErrInvalidPriority => -19,
            Status::InvalidSemValue => -20,
            Status::TimerErrInvalidArgs => -29,
            Status::ErrObjectInUse => -33,
            Status::ErrIncorrectObjState => -35,
            Status::ErrIncorrectObjType => -36,
            Status::ErrStreamDisconnected => -37,
            Status::ErrInvalidSize => -40,
            Status::ErrInvalidArgument => -42,
            Status::FsErrPathTooLong => -103,
            Status::FsErrNameTooLong => -104,
            Status::FsErrDeviceNotFree => -107,
            Status::FsErrPathInvalid => -108,
        }
    }

    /// The name that OSAL's headers give the status.
    pub fn name(self) -> &'static str
        ensures { result.now ≡ status_name self }
    {
        match self {
            Status::Success => "OS_SUCCESS",
            Status::Error => "OS_ERROR",
            Status::InvalidPointer => "OS_INVALID_POINTER",
            Status::ErrorTimeout => "OS_ERROR_TIMEOUT",
            Status::SemFailure => "OS_SEM_FAILURE",
            Status::SemTimeout => "OS_SEM_TIMEOUT",
            Status::QueueEmpty => "OS_QUEUE_EMPTY",
            Status::QueueFull => "OS_QUEUE_FULL",
            Status::QueueTimeout => "OS_QUEUE_TIMEOUT",
            Status::QueueInvalidSize => "OS_QUEUE_INVALID_SIZE",
            Status::ErrNameTooLong => "OS_ERR_NAME_TOO_LONG",
            Status::ErrNoFreeIds => "OS_ERR_NO_FREE_IDS",
            Status::ErrNameTaken => "OS_ERR_NAME_TAKEN",
            Status::ErrInvalidId => "OS_ERR_INVALID_ID",
            Status::ErrNameNotFound => "OS_ERR_NAME_NOT_FOUND",
            Status::ErrInvalidPriority => "OS_ERR_INVALID_PRIORITY",
            Status::InvalidSemValue => "OS_INVALID_SEM_VALUE",
            Status::TimerErrInvalidArgs => "OS_TIMER_ERR_INVALID_ARGS",
            Status::ErrObjectInUse => "OS_ERR_OBJECT_IN_USE",
            Status::ErrIncorrectObjState => "OS_ERR_INCORRECT_OBJ_STATE",
            Status::ErrIncorrectObjType => "OS_ERR_INCORRECT_OBJ_TYPE",
            Status::ErrStreamDisconnected => "OS_ERR_STREAM_DISCONNECTED",
            Status::ErrInvalidSize => "OS_ERR_INVALID_SIZE",
            Status::ErrInvalidArgument => "OS_ERR_INVALID_ARGUMENT",
            Status::FsErrPathTooLong => "OS_FS_ERR_PATH_TOO_LONG",
            Status::FsErrNameTooLong => "OS_FS_ERR_NAME_TOO_LONG",
            Status::FsErrDeviceNotFree => "OS_FS_ERR_DEVICE_NOT_FREE",
            Status::FsErrPathInvalid => "OS_FS_ERR_PATH_INVALID",
        }
    }

    /// The status with that number, if the table has one.
    pub fn of(number: i32) -> Option<Status>
        ensures found { IfSome result (λ s. number_of s ≡ number) }
        ensures none { IfNone result ((s : Status) → number_of s ≢ number) }
        ensures table { result ≡ status_of number }
    {
        Some(match number {
            0 => Status::Success,
            -1 => Status::Error,
            -2 => Status::InvalidPointer,
            -4 => Status::ErrorTimeout,
            -6 => Status::SemFailure,
            -7 => Status::SemTimeout,
            -8 => Status::QueueEmpty,
            -9 => Status::QueueFull,
            -10 => Status::QueueTimeout,
            -11 => Status::QueueInvalidSize,
            -13 => Status::ErrNameTooLong,
            -14 => Status::ErrNoFreeIds,
            -15 => Status::ErrNameTaken,
            -16 => Status::ErrInvalidId,
            -17 => Status::ErrNameNotFound,
            -19 => Status::ErrInvalidPriority,
            -20 => Status::InvalidSemValue,
            -29 => Status::TimerErrInvalidArgs,
            -33 => Status::ErrObjectInUse,
            -35 => Status::ErrIncorrectObjState,
            -36 => Status::ErrIncorrectObjType,
            -37 => Status::ErrStreamDisconnected,
            -40 => Status::ErrInvalidSize,
            -42 => Status::ErrInvalidArgument,
            -103 => Status::FsErrPathTooLong,
            -104 => Status::FsErrNameTooLong,
            -107 => Status::FsErrDeviceNotFree,
            -108 => Status::FsErrPathInvalid,
            _ => return None,
        })
    }
}
