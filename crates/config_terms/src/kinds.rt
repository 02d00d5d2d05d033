//! The kinds of resources, in one place: what is done alike for each of them is a match that is made of its row here.

// To a macro that makes a match: each kind, the type of its resources, and the call that puts a text in the place of a
// property of one.
macro_rules! each_kind {
    ($arms:ident, $given:tt) => {
        $arms!(
            $given, Fs Fs put_fs, Net Net put_net, Device Text put_device,
            Rctl Rctl put_rctl, Attr Attr put_attr, Dataset Text put_dataset
        )
    };
}

pub(crate) use each_kind;
