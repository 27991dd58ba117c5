//! Tests of the program's commands: what each reads and prints.
mod build;
mod check;
mod devices;
mod dictionary;
mod lines;
mod show;
mod words;

/// A Device-Watchdog-Request with Origin-Host a.example and Origin-Realm example.
const WATCHDOG_REQUEST: &str =
    "01000038 80000118 00000000 00000001 00000001 00000108 40000011 612e6578 616d706c 65000000 00000128 4000000f 6578616d 706c6500";

/// The same message with other padding octets and reserved bits.
const FREE_BITS: &str =
    "01000038 8f000118 00000000 00000001 00000001 00000108 5f000011 612e6578 616d706c 65ffffff 00000128 5f00000f 6578616d 706c65ff";

const WATCHDOG_TEXT: &str =
    "message 280 R--- app 0 hop 1 end 1\n  264 -M- 612e6578616d706c65\n  296 -M- 6578616d706c65\n";

/// A message without AVPs, and its text.
const SHORT: &str = "01000014 5000012c 00000004 0000000a ffffffff";

const SHORT_TEXT: &str = "message 300 -P-T app 4 hop 10 end 4294967295\n";
