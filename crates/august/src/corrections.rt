// The corrections of the day as the cameras write them: the gains of red, green and blue.

pub const CAMERA_1: &str = "R1.12 G1.00 B0.91";

pub const CAMERA_1_AT_THREE: &str = "R1.125 G1.00 B0.88";

pub const CAMERA_2: &str = "R1.08 G1 B0.94";

pub const CAMERA_2_AT_NOON: &str = "R1.095 G1 B0.93";

pub const CAMERA_2_AT_SIX: &str = "R1.1 G1 B0.9";

pub const CAMERA_3: &str = "R1.10 G1.0 B0.92";
