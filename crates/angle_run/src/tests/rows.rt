// Worked traces on buffers, each behind the lines that open it, with their replies.

/// What a trace shows, its calls, and their replies behind those of the opening.
pub(crate) struct Row {
    pub(crate) shows: &'static str,
    pub(crate) calls: &'static str,
    pub(crate) replies: &'static str,
}

pub(crate) const ROWS: [Row; 16] = [
    Row {
        shows: "what was filled is read through a map",
        calls: "0 bind copy_read 1\n\
            0 bdata copy_read 4 static_draw 01020304\n\
            0 bmap copy_read 0 4 r\n\
            0 mread copy_read 0 4\n\
            0 bunmap copy_read\n",
        replies: "0 6 ok\n0 7 ok\n0 8 ok\n0 9 bytes 01020304\n0 10 value TRUE\n",
    },
    Row {
        shows: "a part is written, and one that goes past the end is refused",
        calls: "0 bind array 1\n\
            0 bdata array 4 static_draw 00000000\n\
            0 bsub array 2 aabb\n\
            0 bsub array 3 ccdd\n\
            0 bmap array 0 4 r\n\
            0 mread array 0 4\n",
        replies: "0 6 ok\n0 7 ok\n0 8 ok\n0 9 err INVALID_VALUE\n0 10 ok\n0 11 bytes 0000aabb\n",
    },
    Row {
        shows: "the first error stays until it is asked for",
        calls: "0 bind other 1\n\
            0 store pack_align 3\n\
            0 gerror\n\
            0 gerror\n",
        replies: "0 6 err INVALID_ENUM\n0 7 err INVALID_VALUE\n0 8 value INVALID_ENUM\n0 9 value NO_ERROR\n",
    },
    Row {
        shows: "a copy from a buffer to another leaves the first as it is",
        calls: "0 bind copy_read 1\n\
            0 bdata copy_read 4 stream_draw 0a0b0c0d\n\
            0 bind copy_write 2\n\
            0 bdata copy_write 4 stream_draw null\n\
            0 bcopy copy_read copy_write 0 0 4\n\
            0 bmap copy_read 0 4 r\n\
            0 mread copy_read 0 4\n\
            0 bmap copy_write 0 4 r\n\
            0 mread copy_write 0 4\n",
        replies: "0 6 ok\n0 7 ok\n0 8 ok\n0 9 ok\n0 10 ok\n0 11 ok\n0 12 bytes 0a0b0c0d\n0 13 ok\n0 14 bytes 0a0b0c0d\n",
    },
    Row {
        shows: "a copy inside one buffer, and one onto itself that is refused",
        calls: "0 bind copy_read 1\n\
            0 bind copy_write 1\n\
            0 bdata copy_read 8 static_draw 0001020304050607\n\
            0 bcopy copy_read copy_write 0 4 4\n\
            0 bcopy copy_read copy_write 0 3 4\n\
            0 bmap copy_read 0 8 r\n\
            0 mread copy_read 0 8\n",
        replies: "0 6 ok\n0 7 ok\n0 8 ok\n0 9 ok\n0 10 err INVALID_VALUE\n0 11 ok\n0 12 bytes 0001020300010203\n",
    },
    Row {
        shows: "contexts: a ninth, a number that is taken, one that is unknown",
        calls: "0 ecreate 2\n0 ecreate 3\n0 ecreate 4\n0 ecreate 5\n0 ecreate 6\n0 ecreate 7\n0 ecreate 8\n\
            0 ecreate 9\n\
            0 ecreate 8\n\
            0 ecurrent 9\n",
        replies: "0 6 ok\n0 7 ok\n0 8 ok\n0 9 ok\n0 10 ok\n0 11 ok\n0 12 ok\n0 13 err BAD_ALLOC\n0 14 taken\n0 15 err BAD_CONTEXT\n",
    },
    Row {
        shows: "writes through a map, with explicit flushes",
        calls: "0 bind array 1\n\
            0 bdata array 4 dynamic_draw 01020304\n\
            0 bmap array 0 4 wf\n\
            0 mwrite array 0 aabb\n\
            0 bflush array 0 1\n\
            0 bunmap array\n\
            0 bmap array 0 4 r\n\
            0 mread array 0 1\n\
            0 mread array 2 2\n\
            0 bunmap array\n\
            0 bmap array 0 0 r\n\
            0 mread array 0 1\n",
        replies: "0 6 ok\n0 7 ok\n0 8 ok\n0 9 ok\n0 10 ok\n0 11 value TRUE\n0 12 ok\n0 13 bytes aa\n0 14 bytes 0304\n0 15 value TRUE\n0 16 err INVALID_OPERATION\n0 17 no-map\n",
    },
    Row {
        shows: "a part is copied to the start of another buffer",
        calls: "0 bind copy_read 1\n\
            0 bdata copy_read 4 static_draw 01020304\n\
            0 bind copy_write 2\n\
            0 bdata copy_write 4 static_draw 00000000\n\
            0 bcopy copy_read copy_write 1 0 2\n\
            0 bmap copy_write 0 4 r\n\
            0 mread copy_write 0 4\n",
        replies: "0 6 ok\n0 7 ok\n0 8 ok\n0 9 ok\n0 10 ok\n0 11 ok\n0 12 bytes 02030000\n",
    },
    Row {
        shows: "names that are given, freed and given again, and a store that is too large",
        calls: "0 bind array 1\n\
            0 bdata array 67108865 static_draw null\n\
            0 gen buffer 2\n\
            0 del buffer 2\n\
            0 gen buffer 1\n\
            0 gen buffer -1\n\
            0 gerror\n",
        replies: "0 6 ok\n0 7 err OUT_OF_MEMORY\n0 8 names 2 3\n0 9 ok\n0 10 names 2\n0 11 err INVALID_VALUE\n0 12 value OUT_OF_MEMORY\n",
    },
    Row {
        shows: "a map that is written and not read, and one that may not be",
        calls: "0 bind array 1\n\
            0 bdata array 4 dynamic_draw 01020304\n\
            0 bmap array 1 2 wi\n\
            0 mwrite array 0 aabb\n\
            0 mread array 0 1\n\
            0 bunmap array\n\
            0 bmap array 0 4 ru\n\
            0 bmap array 0 4 r\n\
            0 mread array 0 4\n",
        replies: "0 6 ok\n0 7 ok\n0 8 ok\n0 9 ok\n0 10 no-map\n0 11 value TRUE\n0 12 err INVALID_OPERATION\n0 13 ok\n0 14 bytes 01aabb04\n",
    },
    Row {
        shows: "two contexts in turn: what one recorded is there for the other, and a deleted buffer lives while it is bound",
        calls: "0 bind array 1\n\
            0 bdata array 4 static_draw 00000000\n\
            0 bsub array 1 0a0b\n\
            0 ecreate 2\n\
            0 ecurrent 2\n\
            0 bind copy_read 1\n\
            0 bsub copy_read 2 0c\n\
            0 bind copy_write 2\n\
            0 bdata copy_write 3 dynamic_copy %3,7,1\n\
            0 bcopy copy_read copy_write 1 1 2\n\
            0 del buffer 1\n\
            0 bmap copy_write 0 3 r\n\
            0 mread copy_write 0 3\n\
            0 ecurrent 1\n\
            0 bmap array 0 4 r\n\
            0 mread array 0 4\n\
            0 edestroy 2\n\
            0 gen buffer 1\n",
        replies: "0 6 ok\n0 7 ok\n0 8 ok\n0 9 ok\n0 10 ok\n0 11 ok\n0 12 ok\n0 13 ok\n0 14 ok\n0 15 ok\n0 16 ok\n0 17 ok\n0 18 bytes 070a0c\n0 19 ok\n0 20 ok\n0 21 bytes 000a0c00\n0 22 ok\n0 23 names 1\n",
    },
    Row {
        shows: "calls of no bytes, and without a context",
        calls: "0 bind pixel_pack 3\n\
            0 bdata pixel_pack 0 static_read -\n\
            0 bsub pixel_pack 0 -\n\
            0 bdata pixel_pack 2 static_read 0102\n\
            0 bsub pixel_pack 0 0304\n\
            0 bsub pixel_pack 2 -\n\
            0 bind pixel_unpack 4\n\
            0 bdata pixel_unpack 1 stream_read ff\n\
            0 bcopy pixel_pack pixel_unpack 0 0 0\n\
            0 bmap pixel_pack 0 2 rw\n\
            0 mread pixel_pack 2 0\n\
            0 mwrite pixel_pack 1 05\n\
            0 mread pixel_pack 0 2\n\
            0 mread pixel_pack 0 3\n\
            0 bsub pixel_pack 0 06\n\
            0 ecurrent 0\n\
            0 mread pixel_pack 0 2\n\
            0 gerror\n\
            0 eerror\n\
            0 ecurrent 1\n\
            0 get max_texture_size\n",
        replies: "0 6 ok\n0 7 ok\n0 8 ok\n0 9 ok\n0 10 ok\n0 11 ok\n0 12 ok\n0 13 ok\n0 14 ok\n0 15 ok\n0 16 bytes -\n0 17 ok\n0 18 bytes 0305\n0 19 no-map\n0 20 err INVALID_OPERATION\n0 21 ok\n0 22 no-context\n0 23 no-context\n0 24 value SUCCESS\n0 25 ok\n0 26 value 2048\n",
    },
    Row {
        shows: "a fence of a context that ended is signalled, and one of the next context of its index is waited for",
        calls: "0 bind array 1\n\
            0 bdata array 4 static_draw 01020304\n\
            0 fence 1 gpu 0\n\
            0 finish\n\
            0 ecurrent 0\n\
            0 edestroy 1\n\
            0 ecreate 2\n\
            0 ecurrent 2\n\
            0 fence 2 gpu 0\n\
            0 cwait 1 0 0\n\
            0 cwait 2 0 0\n\
            0 cwait 2 1 1000\n",
        replies: "0 6 ok\n0 7 ok\n0 8 ok\n0 9 ok\n0 10 ok\n0 11 ok\n0 12 ok\n0 13 ok\n0 14 ok\n\
            0 15 value ALREADY_SIGNALED\n0 16 value TIMEOUT_EXPIRED\n0 17 value CONDITION_SATISFIED\n",
    },
    Row {
        shows: "a fence is not signalled before its batch is handed over, and is so after a finish",
        calls: "0 fence 1 gpu 0\n\
            0 cwait 1 0 0\n\
            0 finish\n\
            0 cwait 1 0 0\n\
            0 delsync 1\n\
            0 cwait 1 0 0\n\
            0 gerror\n",
        replies: "0 6 ok\n0 7 value TIMEOUT_EXPIRED\n0 8 ok\n0 9 value ALREADY_SIGNALED\n0 10 ok\n\
            0 11 value WAIT_FAILED INVALID_VALUE\n0 12 value INVALID_VALUE\n",
    },
    Row {
        shows: "a sync of EGL is waited for, and is gone once it is destroyed",
        calls: "0 esync 1\n\
            0 ewait 1 0 0\n\
            0 ewait 1 1 5\n\
            0 ewait 1 0 0\n\
            0 edelsync 1\n\
            0 edelsync 1\n\
            0 eerror\n",
        replies: "0 6 ok\n0 7 value TIMEOUT_EXPIRED\n0 8 value CONDITION_SATISFIED\n0 9 value CONDITION_SATISFIED\n\
            0 10 ok\n0 11 err BAD_PARAMETER\n0 12 value BAD_PARAMETER\n",
    },
    Row {
        shows: "a wait for an older sync says nothing of a later one, and a wait for a later one tells of the older",
        calls: "0 fence 1 gpu 0\n\
            0 cwait 1 0 1\n\
            0 esync 1\n\
            0 fence 2 gpu 0\n\
            0 ewait 1 0 0\n\
            0 cwait 2 0 1\n\
            0 ewait 1 0 0\n\
            0 cwait 1 0 0\n\
            0 swait 2 0 ignored\n\
            0 swait 3 0 ignored\n\
            0 cwait 2 2 0\n",
        replies: "0 6 ok\n0 7 value CONDITION_SATISFIED\n0 8 ok\n0 9 ok\n0 10 value TIMEOUT_EXPIRED\n\
            0 11 value CONDITION_SATISFIED\n0 12 value CONDITION_SATISFIED\n0 13 value ALREADY_SIGNALED\n0 14 ok\n\
            0 15 err INVALID_VALUE\n0 16 value WAIT_FAILED INVALID_VALUE\n",
    },
];
