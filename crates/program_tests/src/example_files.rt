//! The example files, and the words of commands on them with what is expected, as `examples/to_tests.sh` writes them.

/// Programs without variants.
pub(crate) const PROGRAM_FILES: [(&str, &str); 16] = [
    (
        "assertion.c",
        "int level = 900;\nint limit = 1000;\nint main(void)\n{\n    level = level - limit;\n    assert(level > 0 - 200);\n    assert(level >= 0);\n    level = 0;\n}\n",
    ),
    (
        "digits.c",
        "/* Counts the digits of a line, and stops at 16 of them. */\nint byte, digits, hexadecimal;\n\nstatic int most = 0x10;\n\nint main(void)\n{\n    byte = input();\n    while (byte != '\\n' && digits < most) {\n        if (byte >= '0' && byte <= '9')\n            digits++;\n        else if (byte >= 'a' && byte <= '\\x66')\n            hexadecimal = 1;\n        byte = input();\n    }\n    assert(digits <= 020);\n    assert(hexadecimal >= '\\0');\n}\n",
    ),
    (
        "frame.c",
        "#include <assert.h>\n/* Fills a frame with samples of two bytes, and sends each at once. */\nstatic int filled;\nstatic int sent;\n\nint main(void)\n{\n    while (filled < 99) {\n        filled += 2;\n        sent += 2;\n    }\n    assert(sent == 100);\n}\n",
    ),
    (
        "includes.c",
        "#include <assert.h>\n#include <stdint.h>\n#include \"board.h\"\n\nint level;\n\nint main(void)\n{\n    level = level + 1;\n    assert(level == 1);\n}\n",
    ),
    (
        "logger.c",
        "#include <assert.h>\n/* A data logger. Each tick of one millisecond takes a sample and puts it into a\n   ring buffer with 16 places. A sample is 0 to 4095, for 0 to 3300 millivolts. */\nextern int input(void);\n\nstatic int tick, head;\nstatic int sample, millivolts;\nstatic int running = 1;\n\nint main(void)\n{\n    while (running) {\n        sample = input();\n        if (sample < 0 || sample > 4095)\n            sample = 0;\n        millivolts = sample * 3300 / 4095;\n        assert(millivolts <= 3300);\n        head = tick % 16;\n        assert(head >= 0 && head < 16);\n        tick++;\n        running = input();\n    }\n    return 0;\n}\n",
    ),
    (
        "logger_mended.c",
        "#include <assert.h>\n/* The data logger of logger.c, mended: the count of ticks starts anew at 0 before it\n   leaves int. As 16 divides 2147483648, the ring buffer goes on where it was. */\nextern int input(void);\n\nstatic int tick, head;\nstatic int sample, millivolts;\nstatic int running = 1;\n\nint main(void)\n{\n    while (running) {\n        sample = input();\n        if (sample < 0 || sample > 4095)\n            sample = 0;\n        millivolts = sample * 3300 / 4095;\n        assert(millivolts <= 3300);\n        head = tick % 16;\n        assert(head >= 0 && head < 16);\n        if (tick == 2147483647)\n            tick = 0;\n        else\n            tick++;\n        running = input();\n    }\n    return 0;\n}\n",
    ),
    (
        "messages.c",
        "#include <assert.h>\n/* A ring of 8 messages. One is put in where the line is ready. */\nextern int input(void);\n\nstatic int head;\nstatic int ready;\n\nint main(void)\n{\n    while (1) {\n        ready = input();\n        if (ready) {\n            assert(head >= 0 && head < 8);\n            head = (head + 1) % 8;\n        }\n    }\n}\n",
    ),
    (
        "modes.c",
        "// A controller's modes are constants: a request within its limits keeps it running, and any other is a fault.\nenum { IDLE, RUN, FAULT };\nenum { LEAST = -10, MOST = 90, };\nint mode;\nint request;\nint main(void)\n{\n    while (mode != FAULT) {\n        request = input();\n        if (request < LEAST || request > MOST)\n            mode = FAULT;\n        else\n            mode = RUN;\n        assert(mode != IDLE);\n        assert(request <= MOST);\n    }\n    assert(mode == FAULT);\n}\n",
    ),
    (
        "overflow.c",
        "int reading = 900;\nint offset = 2147483000;\nint total;\nint main(void)\n{\n    reading = reading - 100;\n    assert(reading > 0);\n    total = reading + offset;\n    assert(total >= reading);\n}\n",
    ),
    (
        "pump.c",
        "/* A pump that is driven by a sensor: both stand in other files. */\nint level(void);\nvoid start(void);\n\nint depth;\nint speed;\n\nint main(void)\n{\n    while (1) {\n        depth = level();\n        if (depth < 0 || depth > 100)\n            depth = 0;\n        start();\n        speed = 1000 / (depth + 1);\n        assert(speed >= 9);\n    }\n}\n",
    ),
    (
        "quiet.c",
        "int width = 640;\nint height = -480;\nint margin;\nint main()\n{\n    margin = width + height - 100;\n    assert(margin == 60);\n    assert(margin <= width);\n}\n",
    ),
    (
        "ramp.c",
        "/* The ramp of a stepper motor, in words that such code has: int32_t, and the short forms of assignments. */\n#include <assert.h>\n\nstatic int32_t phase;\nstatic int32_t speed = 1;\nsigned int steps;\n\nint main(void) {\n    steps = input();\n    if (steps < 0 || steps > 1000) steps = 1000;\n    while (steps > 0) {\n        --steps;\n        if (speed < 400) speed *= 2; else speed /= 2;\n        ++phase;\n        phase %= 4;\n        assert(phase >= 0 && phase < 4);\n        assert(speed > 0);\n    }\n    return 0;\n}\n",
    ),
    (
        "scan.c",
        "/* Looks for the end of a message of at most 16 bytes, and forgets that it may have none. */\nint byte;\nint at;\n\nint main(void)\n{\n    do {\n        byte = input();\n        if (byte == '\\n')\n            break;\n        at++;\n    } while (at < 16);\n    assert(at < 16);\n    return at;\n}\n",
    ),
    (
        "sensor.c",
        "#include <assert.h>\n/* A counter, and a sensor whose value is\n   brought within 0 to 100. */\nextern int input(void);\n\nint count;\nint load;\n\nint main(void)\n{\n    load = input();\n    if (load < 0 || load > 100)\n        load = 0;\n    while (count < 10)\n        count++;\n    assert(count == 10); // narrowing gives 10\n    load = 1000 / load;\n    return 0;\n}\n",
    ),
    (
        "table.c",
        "#include <assert.h>\n/* A table of 16 squares is filled when the program starts. Of the array the assertion of its index is left. */\nstatic int i;\nstatic int entry;\n\nint main(void)\n{\n    for (i = 0; i <= 16; i++) {\n        assert(i >= 0 && i < 16);\n        entry = i * i;\n    }\n    return 0;\n}\n",
    ),
    (
        "valve.c",
        "#include <assert.h>\n\n/* A valve opens as far as a level stands above 80, and is shut above 20. Below 20 nothing is said of it. */\nint main(void)\n{\n    const int high = 80;\n    int level = input();\n    if (level < 0 || level > 100)\n        level = 0;\n\n    int opening;\n    if (level > high)\n        opening = level - high;\n    else if (level > 20)\n        opening = 0;\n    assert(opening >= 0 && opening <= 20);\n    return 0;\n}\n",
    ),
];

/// Those that are refused.
pub(crate) const REFUSED_FILES: [(&str, &str); 18] = [
    (
        "F1.c",
        "int x;\nint main(void)\n{\n    x = 1; /* set it\n}\n",
    ),
    (
        "F10.c",
        "int main(void)\n{\n    assert(\"level\" == 0);\n}\n",
    ),
    (
        "F11.c",
        "int mask;\nint main(void)\n{\n    mask = 0xFFFFFFFF;\n}\n",
    ),
    (
        "F12.c",
        "int level;\nint main(void)\n{\n    unsigned tick = 0;\n    level = tick + 1;\n}\n",
    ),
    (
        "F12_enum.c",
        "enum { low = 2147483647, high };\nint main(void)\n{\n    assert(low < high);\n}\n",
    ),
    (
        "F13.c",
        "int level;\nint main(void)\n{\n    level = limit - 1;\n}\n",
    ),
    (
        "F13_block.c",
        "/* A name behind the block of its declaration. */\nint level;\nint main(void)\n{\n    {\n        int step = 5;\n        level = step;\n    }\n    level = level - step;\n}\n",
    ),
    (
        "F14.c",
        "int level;\nstatic int level = 5;\nint main(void)\n{\n    level = 0;\n}\n",
    ),
    (
        "F16.c",
        "int x;\nint main(void)\n{\n    x = 1 + 1 + 1 + 1 + 1 + 1 + 1 + 1 + 1 + 1 + 1\n        + 1 + 1 + 1 + 1 + 1 + 1 + 1 + 1 + 1 + 1 + 1\n        + 1 + 1 + 1 + 1 + 1 + 1 + 1 + 1 + 1 + 1 + 1\n        + 1 + 1 + 1 + 1 + 1 + 1 + 1 + 1 + 1 + 1 + 1\n        + 1 + 1 + 1 + 1 + 1 + 1 + 1 + 1 + 1 + 1 + 1\n        + 1 + 1 + 1 + 1 + 1 + 1 + 1 + 1 + 1 + 1 + 1;\n}\n",
    ),
    (
        "F17.c",
        "int a, b, c, d, e, f, g, h, i, j, k, l, m, n, o, p, q;\nint main(void)\n{\n    q = 1;\n}\n",
    ),
    (
        "F2.c",
        "int x;\nint main(void)\n{\n    x = 1 + \\\n        2;\n}\n",
    ),
    (
        "F21.c",
        "int level;\nint main(void)\n{\n#ifdef FAST\n    level = 1;\n#endif\n}\n",
    ),
    (
        "F23.c",
        "const int limit = 100;\nint level;\nint main(void)\n{\n    limit = level + 1;\n}\n",
    ),
    (
        "F23_enum.c",
        "enum { idle, run };\nint mode;\nint main(void)\n{\n    mode = idle;\n    run = 2;\n}\n",
    ),
    (
        "F24.c",
        "enum { A, B, C, D, E, F, G, H, I, J, K, L, M, N, O, P, Q };\nint level;\nint main(void)\n{\n    level = Q;\n}\n",
    ),
    (
        "F2_trigraph.c",
        "int x;\nint main(void)\n{\n    // why??/\n    x = 1;\n}\n",
    ),
    (
        "F3.c",
        "/* the assertions\n   of the sensor */ #include <assert.h>\nint main(void)\n{\n    assert(1);\n}\n",
    ),
    (
        "F4.c",
        "#define LIMIT (99 + 1)\nint level;\nint main(void)\n{\n    assert(level < LIMIT);\n}\n",
    ),
];

/// Families, with their models and certificates.
pub(crate) const FAMILY_FILES: [(&str, &str); 20] = [
    (
        "controller.c",
        "/* A controller gives a value from 0 to 1000, whatever is measured. */\n#define OUT_MIN 0\n#define OUT_MAX 1000\n#ifdef CONFIG_ANTIWINDUP\n#define I_MAX 20000\n#endif\nint adc_read(void);\nvoid pwm_set(void);\n\nint main(void)\n{\n    static int32_t integral, last_error;\n    for (;;) {\n        int32_t measured = adc_read();\n        if (measured < 0 || measured > 4095)\n            measured = 0;\n        int32_t error = 2048 - measured;\n        integral += error;\n#ifdef CONFIG_ANTIWINDUP\n        if (integral < -I_MAX)\n            integral = -I_MAX;\n        else if (integral > I_MAX)\n            integral = I_MAX;\n#endif\n        int32_t out = CONFIG_KP * error + CONFIG_KI * integral;\n#if CONFIG_KD > 0\n        out += CONFIG_KD * (error - last_error);\n        last_error = error;\n#endif\n        out /= 16;\n        if (out < OUT_MIN)\n            out = OUT_MIN;\n        else if (out > OUT_MAX)\n            out = OUT_MAX;\n        assert(out >= OUT_MIN && out <= OUT_MAX);\n        pwm_set();\n    }\n}\n",
    ),
    (
        "fifo.c",
        "/* A ring buffer of bytes: what comes is put into it, else one is taken. */\nint uart_ready(void);\nint uart_read(void);\n\nint main(void)\n{\n    static int head, tail, count;\n#if CONFIG_RB_BITS <= 3\n    const int size = 8;\n#elif CONFIG_RB_BITS <= 5\n    const int size = 32;\n#else\n    const int size = 128;\n#endif\n    for (;;) {\n        int ready = uart_ready();\n        if (ready) {\n            int c = uart_read();\n            if (count == size) {\n#ifdef CONFIG_OVERWRITE\n                tail = (tail + 1) % size;\n#else\n                continue;\n#endif\n            } else {\n                count++;\n            }\n            assert(head >= 0 && head < size);\n            head = (head + 1) % size;\n        } else {\n            if (count == 0)\n                continue;\n            assert(tail >= 0 && tail < size);\n            tail = (tail + 1) % size;\n#ifndef CONFIG_NO_COUNT\n            count--;\n#endif\n        }\n        assert(count <= size);\n        assert(count != 0 || head == tail);\n    }\n}\n",
    ),
    (
        "filter.c",
        "/* The weight of a filter is a constant of the build, and its number of taps is a feature. */\n#ifdef FAST\n#define WEIGHT 2\n#else\n#define WEIGHT (3)\n#endif\n#define LEAST -100\nint level;\nint sum;\n\nint main(void)\n{\n    level = input();\n    if (level < LEAST || level > 100)\n        level = 0;\n    sum = level * WEIGHT / TAPS;\n    assert(sum < 250);\n}\n",
    ),
    (
        "levels.c",
        "// The levels of a controller: a constant has another value in each variant.\n#ifdef FAST\nenum { HIGH = 3 };\n#else\nenum { LOW = 4, HIGH };\n#endif\nint main(void)\n{\n    assert(HIGH < 5);\n}\n",
    ),
    (
        "packet.c",
        "/* The payload of a frame is copied, if the frame has a length that it may have. */\n#if CONFIG_MTU >= 1500\n#define MTU 1500\n#elif CONFIG_MTU >= 256\n#define MTU 256\n#else\n#define MTU 64\n#endif\n#ifdef CONFIG_VLAN\n#define HEADER 18\n#else\n#define HEADER 14\n#endif\n#if CONFIG_PAYLOAD >= 1486\n#define ROOM 1486\n#elif CONFIG_PAYLOAD >= 242\n#define ROOM 242\n#else\n#define ROOM 32\n#endif\nint at;\n\nint main(void)\n{\n    int length = input();\n    if (length < HEADER || length > MTU)\n        return -1;\n    int body = length - HEADER;\n#ifdef CONFIG_CHECKSUM\n    if (body < 4)\n        return -1;\n    body -= 4;\n#endif\n#ifdef CONFIG_LENGTH_CHECK\n    if (body > ROOM)\n        return -1;\n#endif\n    for (at = 0; at < body; at++) {\n        assert(HEADER + at < MTU);\n        assert(at < ROOM);\n    }\n    return body;\n}\n",
    ),
    (
        "queue.c",
        "#include <assert.h>\n/* a small queue, in many versions */\nextern int input(void);\nint count;\nint tries = 3;\nint logged;\nint load;\n\nint main(void)\n{\n    load = input();\n#if defined(SAFE)\n    if (load < 0 || load > 100)\n        load = 0;\n#elif SIZE >= 8\n    if (load > 1000)\n        load = 1000;\n#endif\n    while (count < 10) {\n        count++;\n#ifdef LOG\n        logged++;\n#endif\n    }\n#ifdef BULK\n    load = load * 2;\n#endif\n#if RETRY && LIMIT > 0\n    while (tries > 0)\n        tries--;\n    assert(tries == 0);\n#endif\n#ifdef FAST\n    count = 100 / tries;\n#else\n    count = 100 / (tries + 1);\n#endif\n    assert(count >= 0);\n    return 0;\n}\n",
    ),
    (
        "retry.c",
        "/* A block is sent in chunks, each again until it is answered, but not too often. */\nenum { OK, NAK, TIMEOUT };\nint transmit(void);\n\nint main(void)\n{\n    int size = input();\n    int sent = 0, retries = 0, window = CONFIG_WINDOW;\n    if (size < 0 || size > 100000)\n        return -1;\n    while (sent < size) {\n        int chunk = size - sent;\n        if (chunk > window)\n            chunk = window;\n        int answer = transmit();\n        if (answer == OK) {\n            sent += chunk;\n            retries = 0;\n#ifdef CONFIG_GROW\n            if (window < 64)\n                window *= 2;\n#endif\n            continue;\n        }\n#ifdef CONFIG_SHRINK\n        if (answer == NAK)\n            window /= 2;\n#endif\n        retries++;\n        if (retries > CONFIG_RETRIES)\n            return -1;\n        assert(window > 0);\n        assert(retries <= CONFIG_RETRIES);\n    }\n    assert(sent == size);\n    return sent;\n}\n",
    ),
    (
        "ring.c",
        "/* A sample at each tick, in a ring buffer. */\nint tick;\nint head;\nint size;\n\nint main(void)\n{\n#if SLOTS >= 32\n    size = 32;\n#elif SLOTS >= 8\n    size = 8;\n#endif\n    while (tick < 100000) {\n        tick++;\n        head = tick % size;\n        assert(head >= 0 && head < 32);\n    }\n}\n",
    ),
    (
        "slots.c",
        "/* A sample at each tick, in a ring buffer of blocks of 8 places; the configuration says how many places. */\nint tick;\nint block;\n\nint main(void)\n{\n    while (tick < 100000) {\n        tick++;\n        block = tick % (SLOTS / 8);\n        assert(block >= 0 && block < SLOTS);\n    }\n}\n",
    ),
    (
        "controller.json",
        "{\"features\": [{\"name\": \"CONFIG_KP\", \"min\": 1, \"max\": 8}, {\"name\": \"CONFIG_KI\", \"min\": 0, \"max\": 4},\n              {\"name\": \"CONFIG_KD\", \"min\": 0, \"max\": 4}, {\"name\": \"CONFIG_ANTIWINDUP\"}]}\n",
    ),
    (
        "fifo.json",
        "{\"features\": [{\"name\": \"CONFIG_RB_BITS\", \"min\": 3, \"max\": 7}, {\"name\": \"CONFIG_OVERWRITE\"}, {\"name\": \"CONFIG_NO_COUNT\"}]}\n",
    ),
    (
        "filter.json",
        "{\"features\": [{\"name\": \"FAST\"}, {\"name\": \"TAPS\", \"min\": 1, \"max\": 8}]}\n",
    ),
    ("levels.json", "{\"features\": [{\"name\": \"FAST\"}]}\n"),
    (
        "packet.json",
        "{\"features\":[{\"name\":\"CONFIG_MTU\",\"min\":64,\"max\":1500},{\"name\":\"CONFIG_PAYLOAD\",\"min\":32,\"max\":1486},\n{\"name\":\"CONFIG_VLAN\"},{\"name\":\"CONFIG_CHECKSUM\"},{\"name\":\"CONFIG_LENGTH_CHECK\"}]}\n",
    ),
    (
        "queue.json",
        "{\"features\":[{\"name\":\"LOG\"},{\"name\":\"FAST\"},{\"name\":\"RETRY\"},{\"name\":\"SAFE\"},{\"name\":\"BULK\"},\n{\"name\":\"SIZE\",\"min\":1,\"max\":16},{\"name\":\"LIMIT\",\"min\":0,\"max\":5}],\n\"constraints\":[\"!FAST || !SAFE\",\"LIMIT <= SIZE\"]}\n",
    ),
    (
        "retry.json",
        "{\"features\":[{\"name\":\"CONFIG_WINDOW\",\"min\":1,\"max\":4},{\"name\":\"CONFIG_RETRIES\",\"min\":0,\"max\":2},\n{\"name\":\"CONFIG_GROW\"},{\"name\":\"CONFIG_SHRINK\"}]}\n",
    ),
    (
        "ring.json",
        "{\"features\": [{\"name\": \"SLOTS\", \"min\": 4, \"max\": 64}]}\n",
    ),
    (
        "slots.json",
        "{\"features\": [{\"name\": \"SLOTS\", \"min\": 4, \"max\": 64}]}\n",
    ),
    (
        "ring.certificate",
        "famlint certificate 1 stop\nloop 13:5 if SLOTS <= 7: tick in [0,0], head in [0,0], size in [0,0]\nloop 13:5 if SLOTS >= 8 && SLOTS <= 31: tick in [0,100000], head in [0,7], size in [8,8]\nloop 13:5 if SLOTS >= 32: tick in [0,100000], head in [0,31], size in [32,32]\nalarm 15:9: zero-divisor if SLOTS <= 7\n",
    ),
    (
        "ring_narrow.certificate",
        "famlint certificate 1 stop\nloop 13:5 if SLOTS <= 7: tick in [0,0], head in [0,0], size in [0,0]\nloop 13:5 if SLOTS >= 8: tick in [0,100000], head in [0,7], size in [8,8]\nalarm 15:9: zero-divisor if SLOTS <= 7\n",
    ),
];

/// Those that are refused.
pub(crate) const REFUSED_FAMILY_FILES: [(&str, &str); 44] = [
    (
        "F13_family.c",
        "#ifdef FAST\nint limit = 4;\n#endif\nint count;\nint main(void)\n{\n    while (count < limit)\n        count++;\n}\n",
    ),
    (
        "F14_family.c",
        "int limit = 4;\n#if SIZE >= 8\nint limit = 8;\n#endif\nint main(void)\n{\n    limit = limit + 1;\n}\n",
    ),
    (
        "F15.c",
        "int count;\nint main(void)\n{\n    if (FAST)\n        count++;\n}\n",
    ),
    (
        "F15_define.c",
        "#define SIZE 16\nint count;\nint main(void)\n{\n    count = SIZE;\n}\n",
    ),
    (
        "F16_family.c",
        "int port;\nint main(void)\n{\n#if PIN >= 64\n    port = 64;\n#elif PIN >= 63\n    port = 63;\n#elif PIN >= 62\n    port = 62;\n#elif PIN >= 61\n    port = 61;\n#elif PIN >= 60\n    port = 60;\n#elif PIN >= 59\n    port = 59;\n#elif PIN >= 58\n    port = 58;\n#elif PIN >= 57\n    port = 57;\n#elif PIN >= 56\n    port = 56;\n#elif PIN >= 55\n    port = 55;\n#elif PIN >= 54\n    port = 54;\n#elif PIN >= 53\n    port = 53;\n#elif PIN >= 52\n    port = 52;\n#elif PIN >= 51\n    port = 51;\n#elif PIN >= 50\n    port = 50;\n#elif PIN >= 49\n    port = 49;\n#elif PIN >= 48\n    port = 48;\n#elif PIN >= 47\n    port = 47;\n#elif PIN >= 46\n    port = 46;\n#elif PIN >= 45\n    port = 45;\n#elif PIN >= 44\n    port = 44;\n#elif PIN >= 43\n    port = 43;\n#elif PIN >= 42\n    port = 42;\n#elif PIN >= 41\n    port = 41;\n#elif PIN >= 40\n    port = 40;\n#elif PIN >= 39\n    port = 39;\n#elif PIN >= 38\n    port = 38;\n#elif PIN >= 37\n    port = 37;\n#elif PIN >= 36\n    port = 36;\n#elif PIN >= 35\n    port = 35;\n#elif PIN >= 34\n    port = 34;\n#elif PIN >= 33\n    port = 33;\n#elif PIN >= 32\n    port = 32;\n#elif PIN >= 31\n    port = 31;\n#elif PIN >= 30\n    port = 30;\n#elif PIN >= 29\n    port = 29;\n#elif PIN >= 28\n    port = 28;\n#elif PIN >= 27\n    port = 27;\n#elif PIN >= 26\n    port = 26;\n#elif PIN >= 25\n    port = 25;\n#elif PIN >= 24\n    port = 24;\n#elif PIN >= 23\n    port = 23;\n#elif PIN >= 22\n    port = 22;\n#elif PIN >= 21\n    port = 21;\n#elif PIN >= 20\n    port = 20;\n#elif PIN >= 19\n    port = 19;\n#elif PIN >= 18\n    port = 18;\n#elif PIN >= 17\n    port = 17;\n#elif PIN >= 16\n    port = 16;\n#elif PIN >= 15\n    port = 15;\n#elif PIN >= 14\n    port = 14;\n#elif PIN >= 13\n    port = 13;\n#elif PIN >= 12\n    port = 12;\n#elif PIN >= 11\n    port = 11;\n#elif PIN >= 10\n    port = 10;\n#elif PIN >= 9\n    port = 9;\n#elif PIN >= 8\n    port = 8;\n#elif PIN >= 7\n    port = 7;\n#elif PIN >= 6\n    port = 6;\n#elif PIN >= 5\n    port = 5;\n#elif PIN >= 4\n    port = 4;\n#elif PIN >= 3\n    port = 3;\n#elif PIN >= 2\n    port = 2;\n#elif PIN >= 1\n    port = 1;\n#elif PIN == 0\n    port = 100;\n#endif\n}\n",
    ),
    (
        "F19.c",
        "int count;\nint level;\nint main(void)\n{\n    if (count > 8)\n        level = 1;\n#ifdef FAST\n    else\n        level = 2;\n#endif\n}\n",
    ),
    (
        "F22.c",
        "int size;\nint main(void)\n{\n    size = AREA + SIDE;\n}\n",
    ),
    (
        "F23_family.c",
        "#ifdef FAST\nconst int limit = 4;\n#else\nint limit = 8;\n#endif\nint main(void)\n{\n    limit--;\n}\n",
    ),
    (
        "F23_feature.c",
        "int count;\nint main(void)\n{\n    SIZE = 4;\n    while (count < SIZE)\n        count++;\n}\n",
    ),
    (
        "F24_feature.c",
        "enum { A, B, C, D, E, F, G, H, I, J, K, L, M, N, O, P };\nint size;\nint main(void)\n{\n    size = SIZE + P;\n}\n",
    ),
    (
        "F5.c",
        "int count;\nint main(void)\n{\n    count = 1;\n#endif\n}\n",
    ),
    (
        "F6.c",
        "int count;\nint main(void)\n{\n#ifdef FAST\n    count = 1;\n}\n",
    ),
    (
        "F7.c",
        "int count;\nint main(void)\n{\n#ifdef FAST\n    count = 4;\n#else\n    count = 1;\n#elif SIZE > 8\n    count = 8;\n#endif\n}\n",
    ),
    (
        "F8_C1.c",
        "int count;\nint main(void)\n{\n#ifdef FAST SIZE\n    count = 1;\n#endif\n}\n",
    ),
    (
        "F8_C1_syntax.c",
        "int count;\nint main(void)\n{\n#if 20 --SIZE > 4\n    count = 1;\n#endif\n}\n",
    ),
    (
        "F8_C2.c",
        "int count;\nint main(void)\n{\n#if (SIZE > 4) + FAST > 1\n    count = 1;\n#endif\n}\n",
    ),
    (
        "F8_C3.c",
        "int count;\nint main(void)\n{\n#if SIZE * 65536 * 65536 > 0\n    count = 1;\n#endif\n}\n",
    ),
    (
        "F8_C4.c",
        "int count;\nint main(void)\n{\n#ifdef __linux__\n    count = 1;\n#endif\n}\n",
    ),
    (
        "F8_C5.c",
        "int count;\nint main(void)\n{\n#if PIN == 1 || PIN == 3 || PIN == 5 || PIN == 7 || PIN == 9 || PIN == 11 || PIN == 13 || PIN == 15 || PIN == 17 || PIN == 19 || PIN == 21 || PIN == 23 || PIN == 25 || PIN == 27 || PIN == 29 || PIN == 31 || PIN == 33 || PIN == 35 || PIN == 37 || PIN == 39 || PIN == 41 || PIN == 43 || PIN == 45 || PIN == 47 || PIN == 49 || PIN == 51 || PIN == 53 || PIN == 55 || PIN == 57 || PIN == 59 || PIN == 61 || PIN == 63 || PIN == 65\n    count = 1;\n#endif\n}\n",
    ),
    (
        "F8_C6.c",
        "int count;\nint main(void)\n{\n#ifdef FATS\n    count = 1;\n#endif\n}\n",
    ),
    (
        "F8_C7.c",
        "#define LIMIT 8\nint count;\nint main(void)\n{\n#if SIZE > LIMIT\n    count = LIMIT;\n#endif\n}\n",
    ),
    (
        "F9.c",
        "int odd;\nint main(void)\n{\n#if PIN == 1 || PIN == 3 || PIN == 5 || PIN == 7 || PIN == 9 || PIN == 11 || PIN == 13 || PIN == 15\n    odd = 1;\n#elif PIN == 17 || PIN == 19 || PIN == 21 || PIN == 23 || PIN == 25 || PIN == 27 || PIN == 29 || PIN == 31\n    odd = 1;\n#elif PIN == 33 || PIN == 35 || PIN == 37 || PIN == 39 || PIN == 41 || PIN == 43 || PIN == 45 || PIN == 47\n    odd = 1;\n#elif PIN == 49 || PIN == 51 || PIN == 53 || PIN == 55 || PIN == 57 || PIN == 59 || PIN == 61 || PIN == 63\n    odd = 1;\n#elif PIN > 64\n    odd = 2;\n#endif\n}\n",
    ),
    (
        "buffer.c",
        "int count;\n\nint main(void)\n{\n    while (count < 10)\n        count++;\n#ifdef FAST\n    assert(count == 10);\n#endif\n}\n",
    ),
    ("M1.json", "{\"features\": [}\n"),
    (
        "M10.json",
        "{\"features\": [{\"name\": \"PIN\", \"min\": 0, \"max\": 100}],\n\"constraints\": [\n\"PIN != 1 && PIN != 3 && PIN != 5 && PIN != 7 && PIN != 9 && PIN != 11 && PIN != 13 && PIN != 15\",\n\"PIN != 17 && PIN != 19 && PIN != 21 && PIN != 23 && PIN != 25 && PIN != 27 && PIN != 29 && PIN != 31\",\n\"PIN != 33 && PIN != 35 && PIN != 37 && PIN != 39 && PIN != 41 && PIN != 43 && PIN != 45 && PIN != 47\",\n\"PIN != 49 && PIN != 51 && PIN != 53 && PIN != 55 && PIN != 57 && PIN != 59 && PIN != 61 && PIN != 63\",\n\"PIN <= 64\"\n]}\n",
    ),
    (
        "M2.json",
        "{\"features\": [{\"name\": \"SIZE\", \"min\": 1}]}\n",
    ),
    (
        "M3.json",
        "{\"features\": [{\"name\": \"FAST\"}, {\"name\": \"int\"}]}\n",
    ),
    (
        "M4.json",
        "{\"features\": [{\"name\": \"FAST\"}, {\"name\": \"SAFE\"}, {\"name\": \"FAST\"}]}\n",
    ),
    (
        "M5.json",
        "{\"features\": [{\"name\": \"SIZE\", \"min\": 16, \"max\": 1}]}\n",
    ),
    (
        "M6.json",
        "{\"features\": [\n{\"name\": \"LED1\"}, {\"name\": \"LED2\"}, {\"name\": \"LED3\"}, {\"name\": \"LED4\"}, {\"name\": \"LED5\"}, {\"name\": \"LED6\"},\n{\"name\": \"LED7\"}, {\"name\": \"LED8\"}, {\"name\": \"LED9\"}, {\"name\": \"LED10\"}, {\"name\": \"LED11\"}, {\"name\": \"LED12\"},\n{\"name\": \"LED13\"}, {\"name\": \"LED14\"}, {\"name\": \"LED15\"}, {\"name\": \"LED16\"}, {\"name\": \"LED17\"}, {\"name\": \"LED18\"},\n{\"name\": \"LED19\"}, {\"name\": \"LED20\"}, {\"name\": \"LED21\"}, {\"name\": \"LED22\"}, {\"name\": \"LED23\"}, {\"name\": \"LED24\"},\n{\"name\": \"LED25\"}, {\"name\": \"LED26\"}, {\"name\": \"LED27\"}, {\"name\": \"LED28\"}, {\"name\": \"LED29\"}, {\"name\": \"LED30\"},\n{\"name\": \"LED31\"}, {\"name\": \"LED32\"}, {\"name\": \"LED33\"}\n]}\n",
    ),
    (
        "M7_C1.json",
        "{\"features\": [{\"name\": \"FAST\"}, {\"name\": \"SIZE\", \"min\": 1, \"max\": 16}],\n\"constraints\": [\"!FAST || SIZE >= 4\", \"SIZE > 16u\"]}\n",
    ),
    (
        "M7_C1_syntax.json",
        "{\"features\": [{\"name\": \"FAST\"}, {\"name\": \"SIZE\", \"min\": 1, \"max\": 16}],\n\"constraints\": [\"!FAST || SIZE >= 4\", \"SIZE >\"]}\n",
    ),
    (
        "M7_C2.json",
        "{\"features\": [{\"name\": \"FAST\"}, {\"name\": \"SIZE\", \"min\": 1, \"max\": 16}],\n\"constraints\": [\"!FAST || SIZE >= 4\", \"SIZE * SIZE > 4\"]}\n",
    ),
    (
        "M7_C3.json",
        "{\"features\": [{\"name\": \"FAST\"}, {\"name\": \"SIZE\", \"min\": 1, \"max\": 16}],\n\"constraints\": [\"!FAST || SIZE >= 4\", \"SIZE < 4294967296\"]}\n",
    ),
    (
        "M7_C4.json",
        "{\"features\": [{\"name\": \"FAST\"}, {\"name\": \"SIZE\", \"min\": 1, \"max\": 16}],\n\"constraints\": [\"!FAST || SIZE >= 4\", \"__GNUC__ >= 4\"]}\n",
    ),
    (
        "M7_C5.json",
        "{\"features\": [{\"name\": \"PIN\", \"min\": 0, \"max\": 100}],\n\"constraints\": [\"PIN != 1 && PIN != 3 && PIN != 5 && PIN != 7 && PIN != 9 && PIN != 11 && PIN != 13 && PIN != 15 && PIN != 17 && PIN != 19 && PIN != 21 && PIN != 23 && PIN != 25 && PIN != 27 && PIN != 29 && PIN != 31 && PIN != 33 && PIN != 35 && PIN != 37 && PIN != 39 && PIN != 41 && PIN != 43 && PIN != 45 && PIN != 47 && PIN != 49 && PIN != 51 && PIN != 53 && PIN != 55 && PIN != 57 && PIN != 59 && PIN != 61 && PIN != 63 && PIN != 65\"]}\n",
    ),
    (
        "M7_C6.json",
        "{\"features\": [{\"name\": \"FAST\"}, {\"name\": \"SIZE\", \"min\": 1, \"max\": 16}],\n\"constraints\": [\"!FAST || SIZE >= 4\", \"!defined SIZ\"]}\n",
    ),
    (
        "M9.json",
        "{\"features\": [{\"name\": \"FAST\"}, {\"name\": \"SAFE\"}],\n\"constraints\": [\"FAST || SAFE\", \"!FAST\", \"!SAFE\"]}\n",
    ),
    (
        "area.json",
        "{\"features\": [{\"name\": \"AREA\", \"min\": 0, \"max\": 200}, {\"name\": \"SIDE\", \"min\": 0, \"max\": 57}]}\n",
    ),
    (
        "buffer.json",
        "{\"features\": [{\"name\": \"FAST\"}, {\"name\": \"SIZE\", \"min\": 1, \"max\": 16}], \"constraints\": [\"!FAST || SIZE >= 4\"]}\n",
    ),
    (
        "pins.json",
        "{\"features\": [{\"name\": \"PIN\", \"min\": 0, \"max\": 100}]}\n",
    ),
    ("E2.certificate", "loop 5:5 if 1: count in [0,10]\n"),
    (
        "E3.certificate",
        "famlint certificate 1 stop\nloop 5:5 if 1: count in [10,0]\n",
    ),
    (
        "E4.certificate",
        "famlint certificate 1 stop\nloop 5:5 if 1: count in [0,10]\nalarm 6:9: overflow if DEBUG\n",
    ),
];

/// The words of each command on a program without variants, with its output and then its line on the error stream.
pub(crate) const PROGRAMS: [(&str, &str); 38] = [
    ("plain assertion.c", "7:5: assertion\nalarms: 1\n"),
    ("plain digits.c", "alarms: 0\n"),
    (
        "plain frame.c",
        "10:9: overflow\n12:5: assertion\nalarms: 2\n",
    ),
    (
        "plain --domain=octagon frame.c",
        "12:5: assertion\nalarms: 1\n",
    ),
    ("plain --domain=sharp frame.c", "alarms: 0\n"),
    (
        "plain --domain=stride frame.c",
        "10:9: overflow\n12:5: assertion\nalarms: 2\n",
    ),
    ("plain --includes=skip includes.c", "alarms: 0\n"),
    ("plain logger.c", "20:9: overflow\nalarms: 1\n"),
    ("plain logger_mended.c", "alarms: 0\n"),
    ("plain messages.c", "13:13: assertion\nalarms: 1\n"),
    ("plain --widening=thresholds messages.c", "alarms: 0\n"),
    ("plain modes.c", "15:9: assertion\nalarms: 1\n"),
    ("plain overflow.c", "8:5: overflow\nalarms: 1\n"),
    ("plain pump.c", "alarms: 0\n"),
    ("plain quiet.c", "alarms: 0\n"),
    ("plain ramp.c", "alarms: 0\n"),
    ("plain scan.c", "13:5: assertion\nalarms: 1\n"),
    ("plain sensor.c", "17:5: zero-divisor\nalarms: 1\n"),
    ("plain table.c", "9:9: assertion\nalarms: 1\n"),
    ("plain valve.c", "16:5: assertion\nalarms: 1\n"),
    ("plain F1.c", "file: F1 at 4:12\n"),
    ("plain F10.c", "file: F10 at 3:12\n"),
    ("plain F11.c", "file: F11 at 4:12\n"),
    ("plain F12.c", "file: F12 at 4:5\n"),
    ("plain F12_enum.c", "file: F12 at 1:31\n"),
    ("plain F13.c", "file: F13 at 4:13\n"),
    ("plain F13_block.c", "file: F13 at 9:21\n"),
    ("plain F14.c", "file: F14 at 2:12\n"),
    ("plain F16.c", "file: F16 at 9:49\n"),
    ("plain F17.c", "file: F17 at 1:53\n"),
    ("plain F2.c", "file: F2 at 4:13\n"),
    ("plain F21.c", "file: F21 at 4:1\n"),
    ("plain F23.c", "file: F23 at 5:5\n"),
    ("plain F23_enum.c", "file: F23 at 6:5\n"),
    ("plain F24.c", "file: F24 at 1:56\n"),
    ("plain F2_trigraph.c", "file: F2 at 4:11\n"),
    ("plain F3.c", "file: F3 at 1:1\n"),
    ("plain F4.c", "file: F4 at 1:1\n"),
];

/// Those on families.
pub(crate) const FAMILIES: [(&str, &str); 18] = [
    (
        "analyse --regions=merged controller.json controller.c",
        "18:9: overflow if !CONFIG_ANTIWINDUP; example CONFIG_KP=1 CONFIG_KI=0 CONFIG_KD=0 CONFIG_ANTIWINDUP=0\n25:17: overflow if CONFIG_KI >= 1 && !CONFIG_ANTIWINDUP; example CONFIG_KP=1 CONFIG_KI=1 CONFIG_KD=0 CONFIG_ANTIWINDUP=0\n27:9: overflow if CONFIG_KI >= 1 && CONFIG_KD >= 1 && !CONFIG_ANTIWINDUP; example CONFIG_KP=1 CONFIG_KI=1 CONFIG_KD=1 CONFIG_ANTIWINDUP=0\nalarms: 3\n",
    ),
    (
        "analyse --regions=merged --widening=thresholds fifo.json fifo.c",
        "40:9: assertion if !CONFIG_NO_COUNT; example CONFIG_RB_BITS=3 CONFIG_OVERWRITE=0 CONFIG_NO_COUNT=0\nalarms: 1\n",
    ),
    (
        "analyse --regions=merged filter.json filter.c",
        "17:5: assertion if !FAST && TAPS <= 1; example FAST=0 TAPS=1\nalarms: 1\n",
    ),
    (
        "invariants levels.json levels.c",
        "9:5: if !FAST: HIGH in [5,5], LOW in [4,4]\n9:5: if FAST: HIGH in [3,3], LOW in [0,0]\n10:1: if !FAST: unreachable\n10:1: if FAST: HIGH in [3,3], LOW in [0,0]\n9:5: assertion if !FAST; example FAST=0\nalarms: 1\n",
    ),
    (
        "analyse --regions=merged packet.json packet.c",
        "40:9: assertion if CONFIG_MTU <= 255 && CONFIG_PAYLOAD <= 241 && !CONFIG_LENGTH_CHECK; example CONFIG_MTU=64 CONFIG_PAYLOAD=32 CONFIG_VLAN=0 CONFIG_CHECKSUM=0 CONFIG_LENGTH_CHECK=0\n40:9: assertion if CONFIG_MTU >= 256 && CONFIG_MTU <= 1499 && CONFIG_PAYLOAD <= 241 && !CONFIG_LENGTH_CHECK; example CONFIG_MTU=256 CONFIG_PAYLOAD=32 CONFIG_VLAN=0 CONFIG_CHECKSUM=0 CONFIG_LENGTH_CHECK=0\n40:9: assertion if CONFIG_MTU >= 1500 && CONFIG_PAYLOAD <= 1485 && !CONFIG_LENGTH_CHECK; example CONFIG_MTU=1500 CONFIG_PAYLOAD=32 CONFIG_VLAN=0 CONFIG_CHECKSUM=0 CONFIG_LENGTH_CHECK=0\nalarms: 3\n",
    ),
    (
        "advise queue.json queue.c FAST RETRY SIZE=4 LIMIT=2",
        "advice: LOG=0 FAST=0 RETRY=1 SAFE=0 BULK=0 SIZE=4 LIMIT=2; changed 1\n",
    ),
    (
        "analyse queue.json queue.c",
        "22:9: overflow if LOG && !FAST; example LOG=1 FAST=0 RETRY=0 SAFE=0 BULK=0 SIZE=1 LIMIT=0\n22:9: overflow if LOG && FAST; example LOG=1 FAST=1 RETRY=0 SAFE=0 BULK=0 SIZE=1 LIMIT=0\n26:5: overflow if !SAFE && BULK; example LOG=0 FAST=0 RETRY=0 SAFE=0 BULK=1 SIZE=1 LIMIT=0\n34:5: zero-divisor if FAST && RETRY && LIMIT >= 1; example LOG=0 FAST=1 RETRY=1 SAFE=0 BULK=0 SIZE=1 LIMIT=1\nalarms: 4\n",
    ),
    (
        "analyse --domain octagon queue.json queue.c",
        "26:5: overflow if !SAFE && BULK; example LOG=0 FAST=0 RETRY=0 SAFE=0 BULK=1 SIZE=1 LIMIT=0\n34:5: zero-divisor if FAST && RETRY && LIMIT >= 1; example LOG=0 FAST=1 RETRY=1 SAFE=0 BULK=0 SIZE=1 LIMIT=1\nalarms: 2\n",
    ),
    (
        "features queue.json",
        "LOG: free\nFAST: free\nRETRY: free\nSAFE: free\nBULK: free\nSIZE: 1 to 16\nLIMIT: 0 to 5\n",
    ),
    (
        "analyse --regions merged queue.json queue.c",
        "22:9: overflow if LOG; example LOG=1 FAST=0 RETRY=0 SAFE=0 BULK=0 SIZE=1 LIMIT=0\n26:5: overflow if !SAFE && BULK; example LOG=0 FAST=0 RETRY=0 SAFE=0 BULK=1 SIZE=1 LIMIT=0\n34:5: zero-divisor if FAST && RETRY && LIMIT >= 1; example LOG=0 FAST=1 RETRY=1 SAFE=0 BULK=0 SIZE=1 LIMIT=1\nalarms: 3\n",
    ),
    (
        "analyse --regions=merged --domain=octagon --widening=thresholds retry.json retry.c",
        "32:9: assertion if CONFIG_RETRIES >= 1 && CONFIG_SHRINK; example CONFIG_WINDOW=1 CONFIG_RETRIES=1 CONFIG_GROW=0 CONFIG_SHRINK=1\n35:5: assertion if 1; example CONFIG_WINDOW=1 CONFIG_RETRIES=0 CONFIG_GROW=0 CONFIG_SHRINK=0\nalarms: 2\n",
    ),
    (
        "analyse ring.json ring.c",
        "15:9: zero-divisor if SLOTS <= 7; example SLOTS=4\nalarms: 1\n",
    ),
    (
        "certify ring.json ring.c",
        "famlint certificate 1 stop\nloop 13:5 if SLOTS <= 7: tick in [0,0], head in [0,0], size in [0,0]\nloop 13:5 if SLOTS >= 8 && SLOTS <= 31: tick in [0,100000], head in [0,7], size in [8,8]\nloop 13:5 if SLOTS >= 32: tick in [0,100000], head in [0,31], size in [32,32]\nalarm 15:9: zero-divisor if SLOTS <= 7\n",
    ),
    (
        "check ring.json ring.c ring.certificate",
        "certificate: yes, 1 alarms\n",
    ),
    (
        "check ring.json ring.c ring_narrow.certificate",
        "certificate: no: 13:5 loop; example SLOTS=32\n",
    ),
    (
        "invariants ring.json ring.c",
        "9:5: if SLOTS <= 7: unreachable\n9:5: if SLOTS >= 8 && SLOTS <= 31: unreachable\n9:5: if SLOTS >= 32: tick in [0,0], head in [0,0], size in [0,0]\n11:5: if SLOTS <= 7: unreachable\n11:5: if SLOTS >= 8 && SLOTS <= 31: tick in [0,0], head in [0,0], size in [0,0]\n11:5: if SLOTS >= 32: unreachable\n13:5: if SLOTS <= 7: tick in [0,0], head in [0,0], size in [0,0]\n13:5: if SLOTS >= 8 && SLOTS <= 31: tick in [0,100000], head in [0,7], size in [8,8]\n13:5: if SLOTS >= 32: tick in [0,100000], head in [0,31], size in [32,32]\n13:27: if SLOTS <= 7: tick in [0,0], head in [0,0], size in [0,0]\n13:27: if SLOTS >= 8 && SLOTS <= 31: tick in [0,99999], head in [0,7], size in [8,8]\n13:27: if SLOTS >= 32: tick in [0,99999], head in [0,31], size in [32,32]\n14:9: if SLOTS <= 7: tick in [0,0], head in [0,0], size in [0,0]\n14:9: if SLOTS >= 8 && SLOTS <= 31: tick in [0,99999], head in [0,7], size in [8,8]\n14:9: if SLOTS >= 32: tick in [0,99999], head in [0,31], size in [32,32]\n15:9: if SLOTS <= 7: tick in [1,1], head in [0,0], size in [0,0]\n15:9: if SLOTS >= 8 && SLOTS <= 31: tick in [1,100000], head in [0,7], size in [8,8]\n15:9: if SLOTS >= 32: tick in [1,100000], head in [0,31], size in [32,32]\n16:9: if SLOTS <= 7: unreachable\n16:9: if SLOTS >= 8 && SLOTS <= 31: tick in [1,100000], head in [0,7], size in [8,8]\n16:9: if SLOTS >= 32: tick in [1,100000], head in [0,31], size in [32,32]\n18:1: if SLOTS <= 7: unreachable\n18:1: if SLOTS >= 8 && SLOTS <= 31: tick in [100000,100000], head in [0,7], size in [8,8]\n18:1: if SLOTS >= 32: tick in [100000,100000], head in [0,31], size in [32,32]\n15:9: zero-divisor if SLOTS <= 7; example SLOTS=4\nalarms: 1\n",
    ),
    (
        "analyse --regions=merged slots.json slots.c",
        "9:9: zero-divisor if SLOTS <= 4; example SLOTS=4\n9:9: zero-divisor if SLOTS == 5; example SLOTS=5\n9:9: zero-divisor if SLOTS >= 6 && SLOTS <= 7; example SLOTS=6\nalarms: 3\n",
    ),
    (
        "page ring.json ring.c",
        "<!DOCTYPE html>\n<html lang=\"en\">\n<head>\n<meta charset=\"utf-8\">\n<meta name=\"viewport\" content=\"width=device-width, initial-scale=1\">\n<meta http-equiv=\"Content-Security-Policy\" content=\"default-src 'none'; style-src 'unsafe-inline'; script-src 'unsafe-inline'; base-uri 'none'; form-action 'none'\">\n<title>famlint: the alarms of a family</title>\n<style>\n:root {\n  color-scheme: light dark;\n  --ground: #ffffff;\n  --text: #1b1b1b;\n  --soft: #565656;\n  --rule: #8a8a8a;\n  --link: #0b4f9e;\n  --panel: #f3f4f6;\n  --alarm: #a30000;\n  --alarm-ground: #fdeaea;\n  --known: #0a5a2a;\n  --group-1: #eef3fb;\n  --group-2: #e3ebf7;\n  --group-3: #d8e3f3;\n  --group-4: #cddbef;\n}\n@media (prefers-color-scheme: dark) {\n  :root {\n    --ground: #14161a;\n    --text: #e8e8e8;\n    --soft: #a9adb5;\n    --rule: #7d828c;\n    --link: #8ebcff;\n    --panel: #1e2127;\n    --alarm: #ff9c94;\n    --alarm-ground: #3a1c1c;\n    --known: #85d9a0;\n    --group-1: #1a2230;\n    --group-2: #1f293b;\n    --group-3: #243046;\n    --group-4: #293751;\n  }\n}\n* { box-sizing: border-box; }\nbody { margin: 0 auto; max-width: 110rem; padding: 0 1rem 2rem; background: var(--ground); color: var(--text); font: 1rem/1.45 system-ui, sans-serif; }\nh1 { font-size: 1.4rem; margin: 1rem 0 0.25rem; }\nh2 { font-size: 1.1rem; margin: 1rem 0 0.5rem; }\nh3 { font-size: 1rem; margin: 1rem 0 0.25rem; }\nsummary h2 { display: inline; }\na { color: var(--link); }\npre, code { font: 0.875rem/1.45 ui-monospace, monospace; }\npre { margin: 0.5rem 0; overflow-x: auto; tab-size: 4; }\n:focus-visible { outline: 3px solid var(--link); outline-offset: 1px; }\n.skip { position: absolute; left: -100rem; }\n.skip:focus { left: 1rem; top: 0.25rem; background: var(--ground); padding: 0.25rem 0.5rem; }\n#count { font-size: 1.1rem; margin: 0.25rem 0 0.75rem; }\n.numbered { display: flex; gap: 1rem; }\n#numbers { color: var(--soft); text-align: right; flex: none; }\n#file { flex: 1; min-width: 0; }\n/* the texts are not laid out while the script makes the view; where it fails, they are shown */\n@media (scripting: enabled) {\n  #view[hidden]:not(.failed) ~ #texts { display: none; }\n}\n\n#view { display: grid; grid-template-columns: 19rem minmax(0, 1fr); gap: 0 1.5rem; align-items: start; }\n#view[hidden] { display: none; }\n#panel { background: var(--panel); padding: 0 1rem 1rem; border: 1px solid var(--rule); border-radius: 0.4rem; position: sticky; top: 0.5rem; max-height: calc(100vh - 1rem); overflow: auto; }\n#features div { display: flex; flex-wrap: wrap; align-items: center; gap: 0.4rem; padding: 0.15rem 0; }\n#features label { font: 0.875rem/1.45 ui-monospace, monospace; overflow-wrap: anywhere; }\n#features input[type=\"checkbox\"] { width: 1.25rem; height: 1.25rem; margin: 0; }\n#features input[type=\"number\"] { width: 6.5rem; font: inherit; color: var(--text); background: var(--ground); border: 1px solid var(--rule); padding: 0.1rem 0.3rem; }\n#features .range { color: var(--soft); font-size: 0.875rem; }\n#constraints { margin: 0; padding-left: 1.6rem; }\n#constraints code { overflow-wrap: anywhere; }\n.broken { color: var(--alarm); font-weight: 600; }\n\n#list { margin: 0; padding-left: 1.8rem; }\n#list li { padding: 0.15rem 0; }\n#list button, .note button { font: inherit; color: var(--link); background: none; border: 1px solid var(--rule); border-radius: 0.3rem; padding: 0.05rem 0.45rem; cursor: pointer; }\n.alarm { color: var(--soft); }\n.alarm code { overflow-wrap: anywhere; white-space: pre-wrap; }\n.alarm.lit { color: var(--alarm); font-weight: 600; }\n.alarm .state { font-weight: 400; font-style: italic; }\n.help, .legend { color: var(--soft); margin: 0.25rem 0; font-size: 0.9rem; }\n.help label { color: var(--text); white-space: nowrap; }\n\n#listing { border: 1px solid var(--rule); border-radius: 0.4rem; overflow-x: auto; padding: 0.25rem 0; }\n.line { content-visibility: auto; contain-intrinsic-size: auto 1.3rem; min-width: max-content; padding-right: 1rem; }\n.line:target { outline: 2px solid var(--link); outline-offset: -2px; }\n.row { display: flex; align-items: baseline; }\n.number { flex: none; width: 4.2rem; padding: 0 0.4rem; text-align: right; color: var(--soft); background: none; border: 0; font: 0.875rem/1.45 ui-monospace, monospace; }\nbutton.number { color: var(--link); cursor: pointer; text-decoration: underline; }\n.mark { display: inline-block; width: 1.1rem; flex: none; text-align: center; font: 700 0.875rem/1.45 ui-monospace, monospace; }\n.alarm-mark, .has-alarm .row .mark { color: var(--alarm); }\n.row code { white-space: pre; tab-size: 4; }\n.depth-1 { background: var(--group-1); }\n.depth-2 { background: var(--group-2); }\n.depth-3 { background: var(--group-3); }\n.depth-4 { background: var(--group-4); }\n.directive code { font-weight: 600; }\n.left-out code { color: var(--soft); text-decoration: line-through; text-decoration-color: var(--rule); }\n.unreachable code { font-style: italic; color: var(--soft); }\n.has-alarm > .row { background: var(--alarm-ground); }\n.note, .known { width: 0; min-width: min(100%, 70rem); white-space: normal; }\n.note { padding: 0.1rem 0.5rem 0.1rem 5.3rem; font-size: 0.9rem; }\n.known { padding: 0 0.5rem 0.15rem 5.3rem; color: var(--known); font: 0.84rem/1.45 ui-monospace, monospace; overflow-wrap: anywhere; }\n.hidden-text { position: absolute; width: 1px; height: 1px; overflow: hidden; clip-path: inset(50%); white-space: nowrap; }\n\n@media (max-width: 52rem) {\n  body { padding: 0 0.5rem 1rem; }\n  #view { display: block; }\n  #panel { position: static; max-height: none; }\n  .number { width: 3.2rem; }\n  .note, .known { padding-left: 4.3rem; min-width: min(100%, 100vw - 1.5rem); }\n}\n@media (forced-colors: active) {\n  .has-alarm > .row { outline: 2px solid; outline-offset: -2px; }\n}\n@media print {\n  :root { color-scheme: light; --ground: #ffffff; --text: #000000; --soft: #444444; --alarm: #8a0000; --known: #084a22; --link: #000000; }\n  body { max-width: none; font-size: 10pt; }\n  #view { display: block; }\n  #panel { position: static; max-height: none; overflow: visible; }\n  .skip, .help, #list button, .note button, #view:not([hidden]) ~ #texts { display: none; }\n  .line { content-visibility: visible; min-width: 0; }\n  .row code { white-space: pre-wrap; }\n  .line, #list li { break-inside: avoid; }\n}\n</style>\n</head>\n<body>\n<a class=\"skip\" href=\"#list-title\">To the alarms</a>\n<a class=\"skip\" href=\"#source-title\">To the source</a>\n<header>\n<h1>The alarms of a family</h1>\n<p id=\"count\" role=\"status\">Each alarm below has a region: a condition on the features. A configuration has the alarm where it meets the region.</p>\n</header>\n<div id=\"view\" hidden>\n<section id=\"panel\" aria-labelledby=\"panel-title\">\n<h2 id=\"panel-title\">Configuration</h2>\n<form id=\"features\"></form>\n<h3>Constraints of the model</h3>\n<p id=\"validity\"></p>\n<ol id=\"constraints\"></ol>\n</section>\n<main>\n<section aria-labelledby=\"list-title\">\n<h2 id=\"list-title\" tabindex=\"-1\">Alarms</h2>\n<ol id=\"list\"></ol>\n</section>\n<section aria-labelledby=\"source-title\">\n<h2 id=\"source-title\" tabindex=\"-1\">Source</h2>\n<p class=\"help\">The number of a line shows what is known there in this configuration. The arrow keys go from number to number.\n<label><input type=\"checkbox\" id=\"all-known\"> at all lines</label></p>\n<p class=\"legend\"><span class=\"mark alarm-mark\">!</span> alarm of this configuration, <span class=\"mark\">?</span> alarm of others, <span class=\"mark\">-</span> left out, <span class=\"mark\">0</span> unreachable</p>\n<div id=\"listing\"></div>\n</section>\n</main>\n</div>\n<div id=\"texts\">\n<details open>\n<summary><h2>The alarms</h2></summary>\n<pre id=\"alarms\" tabindex=\"0\" role=\"region\" aria-label=\"the alarms\">\n15:9: zero-divisor if SLOTS &#x3c;= 7; example SLOTS=4\nalarms: 1\n</pre>\n</details>\n<details open>\n<summary><h2>The source</h2></summary>\n<div class=\"numbered\"><pre id=\"numbers\" aria-hidden=\"true\">\n1\n2\n3\n4\n5\n6\n7\n8\n9\n10\n11\n12\n13\n14\n15\n16\n17\n18\n19\n</pre><pre id=\"file\" tabindex=\"0\" role=\"region\" aria-label=\"the source\">\n/* A sample at each tick, in a ring buffer. */\nint tick;\nint head;\nint size;\n\nint main(void)\n{\n#if SLOTS &#x3e;= 32\n    size = 32;\n#elif SLOTS &#x3e;= 8\n    size = 8;\n#endif\n    while (tick &#x3c; 100000) {\n        tick++;\n        head = tick % size;\n        assert(head &#x3e;= 0 &#x26;&#x26; head &#x3c; 32);\n    }\n}\n</pre></div>\n</details>\n<details open>\n<summary><h2>The whole report: what is known at each place, and the alarms</h2></summary>\n<pre id=\"report\" tabindex=\"0\" role=\"region\" aria-label=\"the whole report\">\n9:5: if SLOTS &#x3c;= 7: unreachable\n9:5: if SLOTS &#x3e;= 8 &#x26;&#x26; SLOTS &#x3c;= 31: unreachable\n9:5: if SLOTS &#x3e;= 32: tick in [0,0], head in [0,0], size in [0,0]\n11:5: if SLOTS &#x3c;= 7: unreachable\n11:5: if SLOTS &#x3e;= 8 &#x26;&#x26; SLOTS &#x3c;= 31: tick in [0,0], head in [0,0], size in [0,0]\n11:5: if SLOTS &#x3e;= 32: unreachable\n13:5: if SLOTS &#x3c;= 7: tick in [0,0], head in [0,0], size in [0,0]\n13:5: if SLOTS &#x3e;= 8 &#x26;&#x26; SLOTS &#x3c;= 31: tick in [0,100000], head in [0,7], size in [8,8]\n13:5: if SLOTS &#x3e;= 32: tick in [0,100000], head in [0,31], size in [32,32]\n13:27: if SLOTS &#x3c;= 7: tick in [0,0], head in [0,0], size in [0,0]\n13:27: if SLOTS &#x3e;= 8 &#x26;&#x26; SLOTS &#x3c;= 31: tick in [0,99999], head in [0,7], size in [8,8]\n13:27: if SLOTS &#x3e;= 32: tick in [0,99999], head in [0,31], size in [32,32]\n14:9: if SLOTS &#x3c;= 7: tick in [0,0], head in [0,0], size in [0,0]\n14:9: if SLOTS &#x3e;= 8 &#x26;&#x26; SLOTS &#x3c;= 31: tick in [0,99999], head in [0,7], size in [8,8]\n14:9: if SLOTS &#x3e;= 32: tick in [0,99999], head in [0,31], size in [32,32]\n15:9: if SLOTS &#x3c;= 7: tick in [1,1], head in [0,0], size in [0,0]\n15:9: if SLOTS &#x3e;= 8 &#x26;&#x26; SLOTS &#x3c;= 31: tick in [1,100000], head in [0,7], size in [8,8]\n15:9: if SLOTS &#x3e;= 32: tick in [1,100000], head in [0,31], size in [32,32]\n16:9: if SLOTS &#x3c;= 7: unreachable\n16:9: if SLOTS &#x3e;= 8 &#x26;&#x26; SLOTS &#x3c;= 31: tick in [1,100000], head in [0,7], size in [8,8]\n16:9: if SLOTS &#x3e;= 32: tick in [1,100000], head in [0,31], size in [32,32]\n18:1: if SLOTS &#x3c;= 7: unreachable\n18:1: if SLOTS &#x3e;= 8 &#x26;&#x26; SLOTS &#x3c;= 31: tick in [100000,100000], head in [0,7], size in [8,8]\n18:1: if SLOTS &#x3e;= 32: tick in [100000,100000], head in [0,31], size in [32,32]\n15:9: zero-divisor if SLOTS &#x3c;= 7; example SLOTS=4\nalarms: 1\n</pre>\n</details>\n<details open>\n<summary><h2>The model</h2></summary>\n<pre id=\"model\" tabindex=\"0\" role=\"region\" aria-label=\"the model\">\n{&#x22;features&#x22;: [{&#x22;name&#x22;: &#x22;SLOTS&#x22;, &#x22;min&#x22;: 4, &#x22;max&#x22;: 64}]}\n</pre>\n</details>\n</div>\n<footer>\n<h2>How this page was made</h2>\n<pre id=\"about\" tabindex=\"0\" role=\"region\" aria-label=\"how this page was made\">\nfamlint, proved by rattle-kit-13f logic dac8208d650f15bf\noptions: --domain=interval --delay=0 --narrow=1 --widening=type --overflow=stop --regions=paths --unknown=zero --includes=assert\nSHA-256 of MODEL: 96485dd2267de1e4344ba0eaa5f394d5497974dccdbce5995908765e264a85de\nSHA-256 of FILE: 82dadb704b71d3e351e292cf69214aa9a50b6f289a00097081a969d5507eabf3\n</pre>\n<p>It is proved that this page holds the bytes of the model and of the file, and exactly what\n<code>famlint invariants</code> prints of them: the texts above, as they stand in the page. What its script makes of them, the switches, the marks and the count, is tested and not proved.</p>\n</footer>\n<script>\n\"use strict\";\n// The texts of the page: read from its elements, and taken apart line by line.\n\n// HTML reads `&#x80;` to `&#x9f;` as characters of windows-1252, and `&#x00;` as U+FFFD (HTML Standard, \"Numeric character reference end\n// state\"). Each of these characters stands for one byte.\nconst CHARACTERS = new Map([\n  [0xfffd, 0x00], [0x20ac, 0x80], [0x201a, 0x82], [0x0192, 0x83], [0x201e, 0x84], [0x2026, 0x85], [0x2020, 0x86], [0x2021, 0x87],\n  [0x02c6, 0x88], [0x2030, 0x89], [0x0160, 0x8a], [0x2039, 0x8b], [0x0152, 0x8c], [0x017d, 0x8e], [0x2018, 0x91], [0x2019, 0x92],\n  [0x201c, 0x93], [0x201d, 0x94], [0x2022, 0x95], [0x2013, 0x96], [0x2014, 0x97], [0x02dc, 0x98], [0x2122, 0x99], [0x0161, 0x9a],\n  [0x203a, 0x9b], [0x0153, 0x9c], [0x017e, 0x9e], [0x0178, 0x9f],\n]);\n\n/** The bytes that a text of the page stands for. */\nfunction bytesOf(text) {\n  const bytes = new Uint8Array(text.length);\n  for (let at = 0; at < text.length; at++) {\n    const code = text.charCodeAt(at);\n    bytes[at] = CHARACTERS.get(code) ?? code;\n  }\n  return bytes;\n}\n\nconst decoder = new TextDecoder(\"utf-8\", { ignoreBOM: true });\n\n/** Bytes as text; what is no UTF-8 becomes U+FFFD. */\nfunction decoded(bytes) {\n  return decoder.decode(bytes);\n}\n\n/** The lines of a file, each as bytes without its newline. */\nfunction linesOf(bytes) {\n  const lines = [];\n  let start = 0;\n  for (let end = bytes.indexOf(10); end >= 0; end = bytes.indexOf(10, start)) {\n    lines.push(bytes.subarray(start, end));\n    start = end + 1;\n  }\n  if (start < bytes.length) lines.push(bytes.subarray(start));\n  return lines;\n}\n\n/** An example, as names with their values: `A=1 N=-3`, or `-` where there is no feature. */\nfunction valuesOf(example) {\n  const settings = example === \"-\" ? [] : example.split(\" \");\n  return new Map(settings.map((setting) => {\n    const [name, value] = setting.split(\"=\");\n    return [name, BigInt(value)];\n  }));\n}\n\n/** The alarms of a report: lines `LINE:COLUMN: KIND if REGION; example CONFIGURATION`. */\nfunction alarmsOf(text) {\n  const alarms = [];\n  for (const line of text.split(\"\\n\")) {\n    const parts = /^(\\d+):(\\d+): ([a-z-]+) if (.*); example (.*)$/.exec(line);\n    if (parts) {\n      const [, at, column, kind, region, example] = parts;\n      alarms.push({ line: Number(at), column: Number(column), kind, region, example });\n    }\n  }\n  return alarms;\n}\n\n/** What is known: lines `LINE:COLUMN: if REGION: LEAF`. */\nfunction invariantsOf(text) {\n  const invariants = [];\n  for (const line of text.split(\"\\n\")) {\n    const parts = /^(\\d+):(\\d+): if (.*?): (.*)$/.exec(line);\n    if (parts) {\n      const [, at, column, region, leaf] = parts;\n      invariants.push({ line: Number(at), column: Number(column), region, leaf });\n    }\n  }\n  return invariants;\n}\n\n/** The features and constraints of a model. A switch is a number from 0 to 1. */\nfunction modelOf(text) {\n  const model = JSON.parse(text);\n  const features = model.features.map(({ name, min, max }) =>\n    min === undefined ? { name, isSwitch: true, min: 0n, max: 1n } : { name, isSwitch: false, min: BigInt(min), max: BigInt(max) });\n  return { features, constraints: model.constraints ?? [] };\n}\n// Conditions as in `#if` (ISO/IEC 9899:2011, 6.10.1), and the groups of a file.\n\nconst LEVELS = [[\"||\"], [\"&&\"], [\"==\", \"!=\"], [\"<\", \"<=\", \">\", \">=\"], [\"+\", \"-\"], [\"*\"]];\n\n/** What operators make of two numbers. `&&` and `||` have no side that could stop. */\nconst OPERATIONS = {\n  \"||\": (a, b) => truth(a !== 0n || b !== 0n),\n  \"&&\": (a, b) => truth(a !== 0n && b !== 0n),\n  \"==\": (a, b) => truth(a === b),\n  \"!=\": (a, b) => truth(a !== b),\n  \"<\": (a, b) => truth(a < b),\n  \"<=\": (a, b) => truth(a <= b),\n  \">\": (a, b) => truth(a > b),\n  \">=\": (a, b) => truth(a >= b),\n  \"+\": (a, b) => a + b,\n  \"-\": (a, b) => a - b,\n  \"*\": (a, b) => a * b,\n};\n\nfunction truth(holds) {\n  return holds ? 1n : 0n;\n}\n\nfunction tokensOf(text) {\n  const tokens = text.match(/[A-Za-z_][A-Za-z_0-9]*|[0-9][0-9A-Za-z]*|&&|\\|\\||[=!<>]=|[!+\\-*<>()]|\\S/g) ?? [];\n  return { list: tokens, at: 0 };\n}\n\nfunction taken(tokens, ...words) {\n  if (!words.includes(tokens.list[tokens.at])) return undefined;\n  return tokens.list[tokens.at++];\n}\n\n/** An integer constant: decimal, octal or hexadecimal, perhaps with a suffix that says long (ISO/IEC 9899:2011, 6.4.4.1). */\nfunction numberOf(word) {\n  const [, digits] = /^(0[xX][0-9a-fA-F]+|[0-9]+)(?:l|L|ll|LL)?$/.exec(word) ?? [];\n  if (digits === undefined) throw new Error(`no condition: ${word}`);\n  return BigInt(/^0[0-7]+$/.test(digits) ? `0o${digits.slice(1)}` : digits);\n}\n\nfunction parseName(tokens) {\n  const isGroup = taken(tokens, \"(\") !== undefined;\n  const name = tokens.list[tokens.at++];\n  if (isGroup) tokens.at++;\n  return name;\n}\n\n/** A name, a number, a group, or one of these behind a prefix, as a function of an environment. */\nfunction parsePrimary(tokens) {\n  const prefix = taken(tokens, \"!\", \"-\", \"+\");\n  if (prefix !== undefined) {\n    const operand = parsePrimary(tokens);\n    if (prefix === \"!\") return (names) => truth(operand(names) === 0n);\n    return prefix === \"-\" ? (names) => -operand(names) : operand;\n  }\n  if (taken(tokens, \"(\") !== undefined) {\n    const inner = parseLevel(tokens, 0);\n    if (taken(tokens, \")\") === undefined) throw new Error(\"no )\");\n    return inner;\n  }\n  if (taken(tokens, \"defined\") !== undefined) {\n    const name = parseName(tokens);\n    return (names) => truth(names.has(name));\n  }\n  const word = tokens.list[tokens.at++];\n  if (/^[A-Za-z_]/.test(word)) return (names) => names.get(word) ?? 0n;\n  const number = numberOf(word);\n  return () => number;\n}\n\nfunction parseLevel(tokens, level) {\n  if (level === LEVELS.length) return parsePrimary(tokens);\n  let left = parseLevel(tokens, level + 1);\n  for (let sign = taken(tokens, ...LEVELS[level]); sign !== undefined; sign = taken(tokens, ...LEVELS[level])) {\n    const operation = OPERATIONS[sign];\n    const first = left;\n    const second = parseLevel(tokens, level + 1);\n    left = (names) => operation(first(names), second(names));\n  }\n  return left;\n}\n\nconst parsed = new Map();\n\n/** A condition as a test of an environment: the macros that are defined, with their values. */\nfunction conditionOf(text) {\n  let test = parsed.get(text);\n  if (test === undefined) {\n    const tokens = tokensOf(text);\n    const value = parseLevel(tokens, 0);\n    if (tokens.at < tokens.list.length) throw new Error(`behind a condition: ${tokens.list[tokens.at]}`);\n    test = (names) => value(names) !== 0n;\n    parsed.set(text, test);\n  }\n  return test;\n}\n\n/** The macros of a configuration: a switch that is off is not defined. */\nfunction environmentOf(features, values) {\n  const names = new Map();\n  for (const { name, isSwitch } of features) {\n    const value = values.get(name);\n    if (!isSwitch || value !== 0n) names.set(name, value);\n  }\n  return names;\n}\n\n/** The numbers of the constraints that are false, and the names of the features out of range. */\nfunction faultsOf(model, values) {\n  const outside = model.features.filter(({ name, min, max }) => {\n    const value = values.get(name);\n    return value === undefined || value < min || value > max;\n  });\n  if (outside.length > 0) return { outside: outside.map((feature) => feature.name), broken: [] };\n  const names = environmentOf(model.features, values);\n  const broken = model.constraints.map((_, at) => at).filter((at) => !conditionOf(model.constraints[at])(names));\n  return { outside: [], broken };\n}\n\n/** A file without its comments: spaces in their place, and newlines as they were. */\nfunction withoutComments(text) {\n  return text.replace(/\\/\\*[^]*?\\*\\/|\\/\\/[^\\n]*/g, (comment) => comment.replace(/[^\\n]/g, \" \"));\n}\n\n/** The test of a group: its section is kept, no earlier group of the section is, and its own condition holds. */\nfunction groupOf(outer, earlier, test) {\n  return { outer, earlier, test };\n}\n\nfunction testOf(word, rest) {\n  if (word === \"ifdef\") return conditionOf(`defined ${rest}`);\n  if (word === \"ifndef\") return conditionOf(`!defined ${rest}`);\n  return word === \"else\" ? () => true : conditionOf(rest);\n}\n\n/**\n * The lines of a file with what keeps them. Each has a depth, and the group around it, or null; the line of a group directive belongs to\n * what stands around its section.\n */\nfunction groupedLines(text) {\n  const open = [];\n  const inner = () => (open.length > 0 ? open[open.length - 1].group : null);\n  return withoutComments(text).split(\"\\n\").map((line) => {\n    const [, word, rest] = /^\\s*#\\s*([a-z]*)(.*)$/.exec(line) ?? [];\n    if (word === \"if\" || word === \"ifdef\" || word === \"ifndef\") {\n      const outer = inner();\n      open.push({ outer, group: groupOf(outer, [], testOf(word, rest.trim())) });\n      return { depth: open.length, group: outer, isDirective: true };\n    }\n    if ((word === \"elif\" || word === \"else\" || word === \"endif\") && open.length > 0) {\n      const section = open[open.length - 1];\n      const depth = open.length;\n      if (word === \"endif\") open.pop();\n      else section.group = groupOf(section.outer, [...section.group.earlier, section.group.test], testOf(word, rest.trim()));\n      return { depth, group: section.outer, isDirective: true };\n    }\n    return { depth: open.length, group: inner(), isDirective: word !== undefined };\n  });\n}\n\n/** Which groups an environment keeps, asked once for each. */\nfunction keeping(names) {\n  const known = new Map([[null, true]]);\n  return function isKept(group) {\n    let kept = known.get(group);\n    if (kept === undefined) {\n      kept = isKept(group.outer) && !group.earlier.some((test) => test(names)) && group.test(names);\n      known.set(group, kept);\n    }\n    return kept;\n  };\n}\n// What is shown of a configuration.\n\n/** An element with attributes and children; texts become text, never markup. */\nfunction made(name, attributes, ...children) {\n  const element = document.createElement(name);\n  for (const [key, value] of Object.entries(attributes)) element.setAttribute(key, value);\n  element.append(...children);\n  return element;\n}\n\nfunction byLine(items) {\n  const lines = new Map();\n  for (const item of items) {\n    if (!lines.has(item.line)) lines.set(item.line, []);\n    lines.get(item.line).push(item);\n  }\n  return lines;\n}\n\n/** What the page tells, taken apart. */\nfunction reportOf(textOfElement) {\n  const bytes = (id) => bytesOf(textOfElement(id));\n  const file = bytes(\"file\");\n  const ascii = (id) => decoded(bytes(id));\n  const lines = linesOf(file);\n  // a byte is a character here, so that places are as they are counted\n  const grouped = groupedLines(lines.map((line) => Array.from(line, (byte) => String.fromCharCode(byte)).join(\"\")).join(\"\\n\"));\n  const alarms = alarmsOf(ascii(\"alarms\"));\n  return {\n    model: modelOf(ascii(\"model\")),\n    lines: lines.map((line, at) => ({ bytes: line, ...grouped[at] })),\n    alarms,\n    alarmsAt: byLine(alarms),\n    knownAt: byLine(invariantsOf(ascii(\"report\"))),\n  };\n}\n\n/** What holds in a configuration; `isValid` false where it is none. */\nfunction stateOf(report, values) {\n  const faults = faultsOf(report.model, values);\n  const isValid = faults.outside.length === 0 && faults.broken.length === 0;\n  const names = environmentOf(report.model.features, new Map([...values].map(([name, value]) => [name, value ?? 0n])));\n  const isKept = keeping(names);\n  const meets = (item) => isValid && conditionOf(item.region)(names);\n  return {\n    faults,\n    isValid,\n    isKept: (line) => isKept(line.group),\n    lit: new Set(report.alarms.filter(meets)),\n    known: (at) => (report.knownAt.get(at) ?? []).filter(meets),\n  };\n}\n\n/** Whether all that stands on a line is not reached. */\nfunction isUnreachable(known) {\n  return known.length > 0 && known.every(({ leaf }) => leaf === \"unreachable\");\n}\n\n/** The values to begin with: the first example, or the least of each range. */\nfunction firstValues(report) {\n  if (report.alarms.length > 0) return valuesOf(report.alarms[0].example);\n  return new Map(report.model.features.map(({ name, min }) => [name, min]));\n}\n\nconst counted = (count, word) => `${count} ${word}${count === 1 ? \"\" : \"s\"}`;\n\n/** The sentence at the head. */\nfunction headline(report, state) {\n  const { outside, broken } = state.faults;\n  if (outside.length > 0) return `No configuration: ${outside.join(\", \")} out of range.`;\n  if (broken.length > 0) {\n    const numbers = broken.map((at) => at + 1).join(\", \");\n    return `No valid configuration: constraint ${numbers} ${broken.length === 1 ? \"is\" : \"are\"} false. Alarms are told of valid configurations alone.`;\n  }\n  const lines = counted(report.alarms.length, \"alarm line\");\n  return `This configuration has ${counted(state.lit.size, \"alarm\")}, of ${lines} of the whole family.`;\n}\n\n/** The view of a report: the elements that change, and the values that are chosen. */\nclass View {\n  constructor(report) {\n    this.report = report;\n    this.values = firstValues(report);\n    this.inputs = new Map();\n    this.opened = new Set();\n    this.alarmElements = [];\n    this.lineElements = [];\n    this.find = (id) => document.getElementById(id);\n  }\n\n  build() {\n    this.buildPanel();\n    this.buildList();\n    this.buildListing();\n    this.find(\"all-known\").addEventListener(\"change\", () => this.showKnown());\n    this.show();\n    this.find(\"view\").hidden = false;\n    for (const details of document.querySelectorAll(\"#texts details\")) details.open = false;\n  }\n\n  buildPanel() {\n    const rows = this.report.model.features.map((feature) => this.featureRow(feature));\n    this.find(\"features\").append(...rows);\n    this.find(\"features\").addEventListener(\"submit\", (event) => event.preventDefault());\n    this.constraintElements = this.report.model.constraints.map((text) => {\n      const state = made(\"span\", {});\n      this.find(\"constraints\").append(made(\"li\", {}, made(\"code\", {}, text), \" \", state));\n      return state;\n    });\n  }\n\n  featureRow({ name, isSwitch, min, max }) {\n    const id = `feature-${name}`;\n    const input = isSwitch ? made(\"input\", { type: \"checkbox\", id }) : made(\"input\", { type: \"number\", id, min, max, step: 1, required: \"\" });\n    input.addEventListener(\"input\", () => {\n      this.values.set(name, isSwitch ? BigInt(input.checked) : wholeOf(input.value));\n      this.show();\n    });\n    this.inputs.set(name, input);\n    const label = made(\"label\", { for: id }, name);\n    if (isSwitch) return made(\"div\", {}, input, label);\n    const range = made(\"span\", { class: \"range\", id: `${id}-range` }, `${min} to ${max}`);\n    input.setAttribute(\"aria-describedby\", range.id);\n    return made(\"div\", {}, label, input, range);\n  }\n\n  /** A button that chooses the example of an alarm, with what the alarm says. */\n  alarmElement(alarm, name, link) {\n    const button = made(\"button\", { type: \"button\", \"aria-label\": `choose the example of ${alarm.kind} at ${alarm.line}:${alarm.column}` }, \"choose\");\n    button.addEventListener(\"click\", () => this.choose(valuesOf(alarm.example)));\n    const state = made(\"span\", { class: \"state\" });\n    const said = made(\"code\", {}, `${alarm.kind} if ${alarm.region}; example ${alarm.example}`);\n    const element = made(name, { class: \"alarm\" }, ...link, button, \" \", said, \" \", state);\n    this.alarmElements.push({ alarm, element, state });\n    return element;\n  }\n\n  buildList() {\n    for (const alarm of this.report.alarms) {\n      const link = made(\"a\", { href: `#line-${alarm.line}` }, `${alarm.line}:${alarm.column}`);\n      this.find(\"list\").append(this.alarmElement(alarm, \"li\", [link, \" \"]));\n    }\n  }\n\n  buildListing() {\n    const listing = this.find(\"listing\");\n    const elements = this.report.lines.map((line, at) => this.lineElement(line, at + 1));\n    listing.append(...elements);\n    const first = listing.querySelector(\"button.number\");\n    if (first) first.tabIndex = 0;\n    listing.addEventListener(\"keydown\", (event) => this.moveBy(event));\n  }\n\n  lineElement(line, at) {\n    const isKnown = this.report.knownAt.has(at);\n    const number = isKnown\n      ? made(\"button\", { type: \"button\", class: \"number\", tabindex: \"-1\", \"aria-expanded\": \"false\", \"aria-label\": `line ${at}: what is known there` }, String(at))\n      : made(\"span\", { class: \"number\" }, String(at));\n    const mark = made(\"span\", { class: \"mark\" });\n    const row = made(\"div\", { class: \"row\" }, number, mark, made(\"code\", {}, decoded(line.bytes).replace(/\\r$/, \"\")));\n    const element = made(\"div\", { class: `line depth-${Math.min(line.depth, 4)}${line.isDirective ? \" directive\" : \"\"}`, id: `line-${at}` }, row);\n    if (isKnown) number.addEventListener(\"click\", () => this.toggle(at));\n    for (const alarm of this.report.alarmsAt.get(at) ?? []) {\n      element.append(this.alarmElement(alarm, \"div\", []));\n      element.lastChild.classList.add(\"note\");\n    }\n    this.lineElements.push({ line, at, element, row, number, mark, known: null });\n    return element;\n  }\n\n  /** The keys that go from the number of one line to another. */\n  moveBy(event) {\n    if (!event.target.matches(\"button.number\")) return;\n    const numbers = [...this.find(\"listing\").querySelectorAll(\"button.number\")];\n    const from = numbers.indexOf(event.target);\n    const to = { ArrowDown: from + 1, ArrowUp: from - 1, Home: 0, End: numbers.length - 1 }[event.key];\n    if (to === undefined || numbers[to] === undefined) return;\n    event.preventDefault();\n    event.target.tabIndex = -1;\n    numbers[to].tabIndex = 0;\n    numbers[to].focus();\n  }\n\n  toggle(at) {\n    if (!this.opened.delete(at)) this.opened.add(at);\n    this.showKnown();\n  }\n\n  choose(values) {\n    this.values = values;\n    this.show();\n  }\n\n  /** Shows all that depends on the configuration. */\n  show() {\n    this.state = stateOf(this.report, this.values);\n    this.find(\"count\").textContent = headline(this.report, this.state);\n    this.showPanel();\n    for (const { alarm, element, state } of this.alarmElements) {\n      const isLit = this.state.lit.has(alarm);\n      element.classList.toggle(\"lit\", isLit);\n      state.textContent = isLit ? \"in this configuration\" : \"not in this one\";\n    }\n    for (const parts of this.lineElements) this.showLine(parts);\n    this.showKnown();\n  }\n\n  showPanel() {\n    for (const [name, input] of this.inputs) {\n      const value = this.values.get(name);\n      if (input.type === \"checkbox\") input.checked = value === 1n;\n      else if (wholeOf(input.value) !== value) input.value = value ?? \"\";\n    }\n    this.find(\"validity\").textContent = this.state.isValid ? \"The configuration is valid.\" : \"The configuration is not valid.\";\n    this.find(\"validity\").classList.toggle(\"broken\", !this.state.isValid);\n    const { outside, broken } = this.state.faults;\n    this.constraintElements.forEach((element, at) => {\n      const isBroken = broken.includes(at);\n      element.textContent = outside.length > 0 ? \"\" : isBroken ? \"false\" : \"true\";\n      element.classList.toggle(\"broken\", isBroken);\n    });\n  }\n\n  showLine({ line, at, element, mark }) {\n    const alarms = this.report.alarmsAt.get(at) ?? [];\n    const isKept = this.state.isKept(line);\n    const hasAlarm = alarms.some((alarm) => this.state.lit.has(alarm));\n    const isDead = isKept && isUnreachable(this.state.known(at));\n    element.classList.toggle(\"left-out\", !isKept);\n    element.classList.toggle(\"has-alarm\", hasAlarm);\n    element.classList.toggle(\"unreachable\", isDead);\n    const [sign, said] = hasAlarm ? [\"!\", \"alarm\"] : !isKept ? [\"-\", \"left out\"] : isDead ? [\"0\", \"unreachable\"] : alarms.length > 0 ? [\"?\", \"\"] : [\"\", \"\"];\n    if (mark.dataset.sign === sign) return;\n    mark.dataset.sign = sign;\n    mark.title = said;\n    mark.replaceChildren(sign, ...(said ? [made(\"span\", { class: \"hidden-text\" }, ` ${said} `)] : []));\n  }\n\n  /** Shows what is known at the lines that are opened, or at all. */\n  showKnown() {\n    const isAll = this.find(\"all-known\").checked;\n    for (const parts of this.lineElements) {\n      if (!this.report.knownAt.has(parts.at)) continue;\n      const isOpen = isAll || this.opened.has(parts.at);\n      parts.number.setAttribute(\"aria-expanded\", String(isOpen));\n      parts.known?.remove();\n      parts.known = isOpen ? this.knownElement(parts) : null;\n      if (parts.known) parts.row.after(parts.known);\n    }\n  }\n\n  knownElement({ line, at }) {\n    const known = this.state.isValid && this.state.isKept(line) ? this.state.known(at) : [];\n    const said = known.map(({ column, leaf }) => made(\"div\", {}, `${at}:${column}: ${leaf}`));\n    const none = this.state.isValid ? \"left out in this configuration\" : \"no valid configuration\";\n    return made(\"div\", { class: \"known\" }, ...(said.length > 0 ? said : [none]));\n  }\n}\n\n/** A whole number, or nothing. */\nfunction wholeOf(text) {\n  return /^-?[0-9]+$/.test(text) ? BigInt(text) : undefined;\n}\n\nif (typeof document === \"undefined\") {\n  module.exports = { bytesOf, reportOf, stateOf, valuesOf, conditionOf, environmentOf, faultsOf, isUnreachable, headline, firstValues };\n} else {\n  try {\n    new View(reportOf((id) => document.getElementById(id).textContent)).build();\n  } catch (fault) {\n    document.getElementById(\"view\").classList.add(\"failed\");\n    throw fault;\n  }\n}\n</script>\n</body>\n</html>\n",
    ),
];

/// Those on one variant of a family.
pub(crate) const VARIANTS: [(&str, &str); 14] = [
    (
        "project filter.json filter.c FAST TAPS=2",
        "                                                                                             \n\n#define WEIGHT 2\n\n\n\n#define LEAST -100\nint level;\nint sum;\n\nint main(void)\n{\n    level = input();\n    if (level < LEAST || level > 100)\n        level = 0;\n    sum = level * WEIGHT / TAPS;\n    assert(sum < 250);\n}\n",
    ),
    (
        "run --inputs=-90 filter.json filter.c FAST TAPS=4",
        "ended level=-90 sum=-45 WEIGHT=2 LEAST=-100 TAPS=4\n",
    ),
    (
        "run --inputs=64 packet.json packet.c CONFIG_MTU=64 CONFIG_PAYLOAD=32 CONFIG_LENGTH_CHECK",
        "ended at=0 length=64 body=50 MTU=64 HEADER=14 ROOM=32\n",
    ),
    (
        "variant queue.json queue.c FAST RETRY SIZE=4 LIMIT=2",
        "34:5: zero-divisor\nalarms: 1\n",
    ),
    (
        "variant queue.json queue.c LOG SIZE=4 LIMIT=2",
        "22:9: overflow\nalarms: 1\n",
    ),
    (
        "variant --domain octagon queue.json queue.c LOG SIZE=4 LIMIT=2",
        "alarms: 0\n",
    ),
    (
        "variant queue.json queue.c FAST SAFE SIZE=4 LIMIT=2",
        "configuration: K5\n",
    ),
    (
        "run queue.json queue.c SAFE SIZE=4 LIMIT=2",
        "waiting 11:5 count=0 tries=3 logged=0 load=0\n",
    ),
    (
        "run --inputs=9,0,1,1,1 retry.json retry.c CONFIG_WINDOW=2 CONFIG_RETRIES=1",
        "ended size=9 sent=2 retries=2 window=2 chunk=2 answer=1 OK=0 NAK=1 TIMEOUT=2 CONFIG_WINDOW=2 CONFIG_RETRIES=1\n",
    ),
    ("variant ring.json ring.c SLOTS=16", "alarms: 0\n"),
    (
        "variant ring.json ring.c SLOTS=4",
        "15:9: zero-divisor\nalarms: 1\n",
    ),
    (
        "run ring.json ring.c SLOTS=4",
        "stopped 15:9 zero-divisor\n",
    ),
    (
        "variant slots.json slots.c SLOTS=4",
        "9:9: zero-divisor\nalarms: 1\n",
    ),
    (
        "run --steps=8 slots.json slots.c SLOTS=8",
        "at 9:9 tick=2 block=0 SLOTS=8\n",
    ),
];

/// Those on families that are refused.
pub(crate) const REFUSED_FAMILIES: [(&str, &str); 46] = [
    (
        "check buffer.json buffer.c E2.certificate",
        "certificate: E2\n",
    ),
    (
        "check buffer.json buffer.c E3.certificate",
        "certificate: E3 at line 2\n",
    ),
    (
        "check buffer.json buffer.c E4.certificate",
        "certificate: E4 at line 3\n",
    ),
    (
        "analyse buffer.json F13_family.c",
        "file: F13 at 7:20; example FAST=0 SIZE=1\n",
    ),
    (
        "analyse buffer.json F14_family.c",
        "file: F14 at 3:5; example FAST=0 SIZE=8\n",
    ),
    ("analyse buffer.json F15.c", "file: F15 at 4:9\n"),
    ("analyse buffer.json F15_define.c", "file: F15 at 1:9\n"),
    ("analyse pins.json F16_family.c", "file: F16 at 132:1\n"),
    ("analyse buffer.json F19.c", "file: F19 at 8:5\n"),
    ("analyse area.json F22.c", "file: F22 at 4:19\n"),
    ("analyse buffer.json F23_family.c", "file: F23 at 8:5\n"),
    ("analyse buffer.json F23_feature.c", "file: F23 at 4:5\n"),
    ("analyse buffer.json F24_feature.c", "file: F24 at 5:12\n"),
    ("analyse buffer.json F5.c", "file: F5 at 5:1\n"),
    ("analyse buffer.json F6.c", "file: F6 at 4:1\n"),
    ("analyse buffer.json F7.c", "file: F7 at 8:1\n"),
    ("analyse buffer.json F8_C1.c", "file: F8 C1 at 4:1\n"),
    ("analyse buffer.json F8_C1_syntax.c", "file: F8 C1 at 4:1\n"),
    ("analyse buffer.json F8_C2.c", "file: F8 C2 at 4:1\n"),
    ("analyse buffer.json F8_C3.c", "file: F8 C3 at 4:1\n"),
    ("analyse buffer.json F8_C4.c", "file: F8 C4 at 4:1\n"),
    ("analyse pins.json F8_C5.c", "file: F8 C5 at 4:1\n"),
    (
        "analyse --unknown=refuse buffer.json F8_C6.c",
        "file: F8 C6 at 4:1\n",
    ),
    ("analyse buffer.json F8_C7.c", "file: F8 C7 at 5:1\n"),
    ("analyse pins.json F9.c", "file: F9 at 12:1\n"),
    (
        "variant buffer.json buffer.c SLOW",
        "configuration: K1 at word 1\n",
    ),
    (
        "variant buffer.json buffer.c FAST",
        "configuration: K2 SIZE\n",
    ),
    (
        "variant buffer.json buffer.c SIZE=4 SIZE=8",
        "configuration: K3 at word 2\n",
    ),
    (
        "variant buffer.json buffer.c SIZE=17",
        "configuration: K4 at word 1\n",
    ),
    (
        "variant buffer.json buffer.c SIZE=08",
        "configuration: K4 at word 1\n",
    ),
    (
        "variant buffer.json buffer.c FAST SIZE=2",
        "configuration: K5\n",
    ),
    ("analyse M1.json buffer.c", "model: M1\n"),
    ("analyse M10.json buffer.c", "model: M10\n"),
    ("analyse M2.json buffer.c", "model: M2\n"),
    ("analyse M3.json buffer.c", "model: M3 at feature 2\n"),
    ("analyse M4.json buffer.c", "model: M4 at feature 3\n"),
    ("analyse M5.json buffer.c", "model: M5 at feature 1\n"),
    ("analyse M6.json buffer.c", "model: M6\n"),
    (
        "analyse M7_C1.json buffer.c",
        "model: M7 C1 at constraint 2\n",
    ),
    (
        "analyse M7_C1_syntax.json buffer.c",
        "model: M7 C1 at constraint 2\n",
    ),
    (
        "analyse M7_C2.json buffer.c",
        "model: M7 C2 at constraint 2\n",
    ),
    (
        "analyse M7_C3.json buffer.c",
        "model: M7 C3 at constraint 2\n",
    ),
    (
        "analyse M7_C4.json buffer.c",
        "model: M7 C4 at constraint 2\n",
    ),
    (
        "analyse M7_C5.json buffer.c",
        "model: M7 C5 at constraint 1\n",
    ),
    (
        "analyse --unknown=refuse M7_C6.json buffer.c",
        "model: M7 C6 at constraint 2\n",
    ),
    ("analyse M9.json buffer.c", "model: M9\n"),
];
