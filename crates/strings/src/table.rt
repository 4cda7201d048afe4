// The standard strings of TN5176, Appendix A, written by tools/standard_strings.py from the Rust's STANDARD_STRINGS.

// All names, one behind the other.
pub static STANDARD_TEXT: [u8; 3052] =
    *b".notdefspaceexclamquotedblnumbersigndollarpercentampersandquoterightparenleftparenrightasteriskplus\
    commahyphenperiodslashzeroonetwothreefourfivesixseveneightninecolonsemicolonlessequalgreaterquestion\
    atABCDEFGHIJKLMNOPQRSTUVWXYZbracketleftbackslashbracketrightasciicircumunderscorequoteleftabcdefghij\
    klmnopqrstuvwxyzbraceleftbarbracerightasciitildeexclamdowncentsterlingfractionyenflorinsection\
    currencyquotesinglequotedblleftguillemotleftguilsinglleftguilsinglrightfiflendashdaggerdaggerdbl\
    periodcenteredparagraphbulletquotesinglbasequotedblbasequotedblrightguillemotrightellipsis\
    perthousandquestiondowngraveacutecircumflextildemacronbrevedotaccentdieresisringcedillahungarumlaut\
    ogonekcaronemdashAEordfeminineLslashOslashOEordmasculineaedotlessilslashoslashoegermandbls\
    onesuperiorlogicalnotmutrademarkEthonehalfplusminusThornonequarterdividebrokenbardegreethorn\
    threequarterstwosuperiorregisteredminusethmultiplythreesuperiorcopyrightAacuteAcircumflexAdieresis\
    AgraveAringAtildeCcedillaEacuteEcircumflexEdieresisEgraveIacuteIcircumflexIdieresisIgraveNtilde\
    OacuteOcircumflexOdieresisOgraveOtildeScaronUacuteUcircumflexUdieresisUgraveYacuteYdieresisZcaron\
    aacuteacircumflexadieresisagravearingatildeccedillaeacuteecircumflexedieresisegraveiacuteicircumflex\
    idieresisigraventildeoacuteocircumflexodieresisograveotildescaronuacuteucircumflexudieresisugrave\
    yacuteydieresiszcaronexclamsmallHungarumlautsmalldollaroldstyledollarsuperiorampersandsmall\
    Acutesmallparenleftsuperiorparenrightsuperiortwodotenleaderonedotenleaderzerooldstyleoneoldstyle\
    twooldstylethreeoldstylefouroldstylefiveoldstylesixoldstylesevenoldstyleeightoldstylenineoldstyle\
    commasuperiorthreequartersemdashperiodsuperiorquestionsmallasuperiorbsuperiorcentsuperiordsuperior\
    esuperiorisuperiorlsuperiormsuperiornsuperiorosuperiorrsuperiorssuperiortsuperiorffffiffl\
    parenleftinferiorparenrightinferiorCircumflexsmallhyphensuperiorGravesmallAsmallBsmallCsmallDsmall\
    EsmallFsmallGsmallHsmallIsmallJsmallKsmallLsmallMsmallNsmallOsmallPsmallQsmallRsmallSsmallTsmall\
    UsmallVsmallWsmallXsmallYsmallZsmallcolonmonetaryonefittedrupiahTildesmallexclamdownsmall\
    centoldstyleLslashsmallScaronsmallZcaronsmallDieresissmallBrevesmallCaronsmallDotaccentsmall\
    MacronsmallfiguredashhypheninferiorOgoneksmallRingsmallCedillasmallquestiondownsmalloneeighth\
    threeeighthsfiveeighthsseveneighthsonethirdtwothirdszerosuperiorfoursuperiorfivesuperiorsixsuperior\
    sevensuperioreightsuperiorninesuperiorzeroinferioroneinferiortwoinferiorthreeinferiorfourinferior\
    fiveinferiorsixinferiorseveninferioreightinferiornineinferiorcentinferiordollarinferior\
    periodinferiorcommainferiorAgravesmallAacutesmallAcircumflexsmallAtildesmallAdieresissmallAringsmall\
    AEsmallCcedillasmallEgravesmallEacutesmallEcircumflexsmallEdieresissmallIgravesmallIacutesmall\
    IcircumflexsmallIdieresissmallEthsmallNtildesmallOgravesmallOacutesmallOcircumflexsmallOtildesmall\
    OdieresissmallOEsmallOslashsmallUgravesmallUacutesmallUcircumflexsmallUdieresissmallYacutesmall\
    ThornsmallYdieresissmall001.000001.001001.002001.003BlackBoldBookLightMediumRegularRomanSemibold";

// Where each name begins in the text, and where the last one ends.
pub static STANDARD_OFFSETS: [u16; 392] = [
    0, 7, 12, 18, 26, 36, 42, 49, 58, 68, 77, 87, 95, 99, 104, 110, 116, 121, 125, 128, 131, 136,
    140, 144, 147, 152, 157, 161, 166, 175, 179, 184, 191, 199, 201, 202, 203, 204, 205, 206, 207,
    208, 209, 210, 211, 212, 213, 214, 215, 216, 217, 218, 219, 220, 221, 222, 223, 224, 225, 226,
    227, 238, 247, 259, 270, 280, 289, 290, 291, 292, 293, 294, 295, 296, 297, 298, 299, 300, 301,
    302, 303, 304, 305, 306, 307, 308, 309, 310, 311, 312, 313, 314, 315, 324, 327, 337, 347, 357,
    361, 369, 377, 380, 386, 393, 401, 412, 424, 437, 450, 464, 466, 468, 474, 480, 489, 503, 512,
    518, 532, 544, 557, 571, 579, 590, 602, 607, 612, 622, 627, 633, 638, 647, 655, 659, 666, 678,
    684, 689, 695, 697, 708, 714, 720, 722, 734, 736, 744, 750, 756, 758, 768, 779, 789, 791, 800,
    803, 810, 819, 824, 834, 840, 849, 855, 860, 873, 884, 894, 899, 902, 910, 923, 932, 938, 949,
    958, 964, 969, 975, 983, 989, 1000, 1009, 1015, 1021, 1032, 1041, 1047, 1053, 1059, 1070, 1079,
    1085, 1091, 1097, 1103, 1114, 1123, 1129, 1135, 1144, 1150, 1156, 1167, 1176, 1182, 1187, 1193,
    1201, 1207, 1218, 1227, 1233, 1239, 1250, 1259, 1265, 1271, 1277, 1288, 1297, 1303, 1309, 1315,
    1321, 1332, 1341, 1347, 1353, 1362, 1368, 1379, 1396, 1410, 1424, 1438, 1448, 1465, 1483, 1497,
    1511, 1523, 1534, 1545, 1558, 1570, 1582, 1593, 1606, 1619, 1631, 1644, 1663, 1677, 1690, 1699,
    1708, 1720, 1729, 1738, 1747, 1756, 1765, 1774, 1783, 1792, 1801, 1810, 1812, 1815, 1818, 1835,
    1853, 1868, 1882, 1892, 1898, 1904, 1910, 1916, 1922, 1928, 1934, 1940, 1946, 1952, 1958, 1964,
    1970, 1976, 1982, 1988, 1994, 2000, 2006, 2012, 2018, 2024, 2030, 2036, 2042, 2048, 2061, 2070,
    2076, 2086, 2101, 2113, 2124, 2135, 2146, 2159, 2169, 2179, 2193, 2204, 2214, 2228, 2239, 2248,
    2260, 2277, 2286, 2298, 2309, 2321, 2329, 2338, 2350, 2362, 2374, 2385, 2398, 2411, 2423, 2435,
    2446, 2457, 2470, 2482, 2494, 2505, 2518, 2531, 2543, 2555, 2569, 2583, 2596, 2607, 2618, 2634,
    2645, 2659, 2669, 2676, 2689, 2700, 2711, 2727, 2741, 2752, 2763, 2779, 2793, 2801, 2812, 2823,
    2834, 2850, 2861, 2875, 2882, 2893, 2904, 2915, 2931, 2945, 2956, 2966, 2980, 2987, 2994, 3001,
    3008, 3013, 3017, 3021, 3026, 3032, 3039, 3044, 3052,
];

// The ids in the rising byte order of their names.
pub static STANDARD_ORDER: [u16; 391] = [
    0, 379, 380, 381, 382, 34, 138, 353, 171, 348, 172, 349, 234, 173, 351, 174, 347, 175, 352,
    274, 176, 350, 35, 383, 384, 385, 310, 275, 36, 311, 177, 354, 318, 271, 276, 37, 309, 312,
    277, 38, 178, 356, 179, 357, 180, 358, 181, 355, 278, 154, 363, 39, 279, 40, 273, 280, 41, 281,
    230, 42, 182, 360, 183, 361, 184, 362, 185, 359, 282, 43, 283, 44, 284, 45, 386, 140, 306, 285,
    46, 313, 387, 286, 47, 287, 186, 364, 48, 142, 370, 187, 366, 188, 367, 189, 369, 316, 190,
    365, 141, 371, 288, 191, 368, 49, 289, 50, 290, 51, 388, 317, 389, 291, 52, 192, 307, 390, 292,
    53, 157, 377, 303, 293, 54, 193, 373, 194, 374, 195, 375, 196, 372, 294, 55, 295, 56, 296, 57,
    297, 58, 197, 376, 198, 378, 298, 59, 199, 308, 299, 66, 200, 201, 125, 202, 144, 203, 7, 233,
    204, 63, 95, 11, 253, 33, 205, 67, 61, 93, 92, 94, 60, 62, 129, 160, 254, 116, 68, 136, 206,
    133, 97, 343, 305, 255, 126, 27, 300, 13, 346, 249, 170, 103, 69, 112, 113, 161, 131, 159, 5,
    344, 231, 232, 130, 145, 256, 70, 207, 208, 209, 210, 25, 341, 247, 331, 121, 137, 111, 30,
    257, 167, 2, 96, 304, 229, 71, 266, 267, 268, 109, 314, 22, 322, 338, 244, 328, 110, 101, 21,
    337, 243, 327, 99, 72, 149, 124, 31, 106, 120, 107, 108, 73, 134, 14, 315, 272, 74, 211, 212,
    213, 214, 258, 75, 76, 77, 29, 151, 146, 259, 78, 128, 166, 260, 152, 168, 79, 26, 342, 248,
    332, 261, 215, 4, 80, 216, 217, 218, 148, 135, 219, 18, 238, 320, 301, 155, 334, 240, 158, 150,
    324, 139, 143, 147, 262, 220, 81, 115, 9, 269, 235, 10, 270, 236, 6, 15, 114, 345, 251, 122,
    12, 156, 82, 32, 123, 319, 252, 3, 118, 105, 119, 65, 8, 117, 104, 83, 165, 132, 263, 302, 84,
    221, 102, 28, 24, 323, 340, 246, 330, 23, 339, 245, 329, 16, 1, 264, 98, 85, 162, 20, 321, 336,
    242, 163, 250, 169, 127, 153, 265, 19, 237, 335, 241, 164, 325, 86, 222, 223, 224, 225, 64, 87,
    88, 89, 90, 226, 227, 100, 91, 228, 17, 333, 239, 326,
];
